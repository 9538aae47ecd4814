//! Why rules or a selector are refused.

ghost use Rattle.std.specs.Prelude.{◌≡◌};
ghost use Rattle.vap_match.specs.MatchNames.{match_fault_name};

use base_containers::Failed;
use thiserror::Error;

#[derive(Clone, Copy, Debug, PartialEq, Eq, Error)]
pub enum MatchFault {
    /// A selector is not of its form: an operator is none of the words, or has values where it may have none, or none
    /// where it needs some, or something is of a wrong kind.
    #[error("a selector that is not understood")]
    BadOperator = 1,
    /// A `scope` is none of its words.
    #[error("a scope that is not understood")]
    BadScope = 2,
    /// Rules are not of their form in another way: a list of a rule that needs an item has none or is absent, an
    /// operation or a `matchPolicy` is none of the words, or something is of a wrong kind.
    #[error("a rule that is not understood")]
    EmptyRule = 3,
}

impl MatchFault {
    /// The name that is printed.
    pub fn name(&self) -> &'static str
        ensures { result.now ≡ match_fault_name self.now }
    {
        match self {
            MatchFault::BadOperator => "BadOperator",
            MatchFault::BadScope => "BadScope",
            MatchFault::EmptyRule => "EmptyRule",
        }
    }
}

pub type MatchError = Failed<MatchFault>;
