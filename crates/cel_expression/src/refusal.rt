//! Why an expression may not be run.

ghost use Rattle.std.specs.Prelude.{◌≡◌};
ghost use Rattle.cel_expression.specs.Names.{refusal_name, refusal_place};
ghost use Rattle.cel_expression.specs.declared.refusal.CompileFault.TheVariants.{Unverified};

use base_containers::Failed;
use cel_check::TypeFault;
use cel_parse::ParseFault;
use cel_verify::VerifyFault;

/// Why a text is no expression that may be run; the first of these that applies.
#[derive(Clone, Copy, Debug, PartialEq, Eq)]
pub enum Refusal {
    Parse(ParseFault),
    Type(TypeFault),
    /// It may charge more than 10,000,000; the estimate is reported up to the greatest number of 64 bits.
    OverBudget(u64),
}

impl Refusal {
    /// The name that is printed: for a fault of the parser or of a type, its own name.
    pub fn name(&self) -> &'static str
        ensures { result.now ≡ refusal_name self.now }
    {
        match self {
            Refusal::Parse(fault) => fault.name(),
            Refusal::Type(fault) => fault.rule.name(),
            Refusal::OverBudget(_) => "OverBudget",
        }
    }

    /// Where the text is at fault, if it is at one place.
    pub fn place(&self) -> Option<usize>
        ensures { result ≡ refusal_place self.now }
    {
        match self {
            Refusal::Parse(fault) => fault.place(),
            Refusal::Type(fault) => Some(fault.place),
            Refusal::OverBudget(_) => None,
        }
    }
}

/// Why an expression that may be run is not compiled.
#[derive(Clone, Copy, Debug, PartialEq, Eq)]
pub enum CompileFault {
    /// The verifier refuses the compiled image, at this instruction.
    Unverified { at: usize },
}

impl From<VerifyFault> for CompileFault {
    ghost from_gives = { λ refused fault. fault ≡ Unverified refused.at };

    fn from(refused: VerifyFault) -> CompileFault {
        CompileFault::Unverified { at: refused.at }
    }
}

/// Why an expression that may be run is not compiled.
pub type CompileError = Failed<CompileFault>;
