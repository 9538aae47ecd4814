//! Why a policy is misconfigured at a kind.

ghost use Rattle.std.specs.Prelude.{◌≡◌};
ghost use Rattle.vap_policy_programs.specs.Names.{pair_fault_name};

use cel_expression::Refusal;

#[derive(Clone, Copy, Debug, PartialEq, Eq)]
pub enum PairFault {
    /// The kind of its params is not known.
    UnknownParamKind,
    /// An expression may not be run.
    Expression(Refusal),
    /// All expressions together may charge more than 100,000,000.
    OverBudget,
}

impl PairFault {
    /// The name that is reported: that of the innermost fault, without a place.
    pub fn name(&self) -> &'static str
        ensures { result.now ≡ pair_fault_name self.now }
    {
        match self {
            PairFault::UnknownParamKind => "UnknownParamKind",
            PairFault::Expression(refusal) => refusal.name(),
            PairFault::OverBudget => "OverBudget",
        }
    }
}
