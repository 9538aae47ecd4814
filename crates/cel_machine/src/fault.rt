//! Why a run was given up.

ghost use Rattle.std.specs.Prelude.{◌≡◌};
ghost use Rattle.cel_machine.specs.declared.fault.RunFault.TheVariants.{Pattern};

use base_containers::Failed;
use cel_operators::PatternFault;
use thiserror::Error;

#[derive(Clone, Copy, Debug, PartialEq, Eq, Error)]
pub enum RunFault {
    /// A pattern that the run looked for is not built: it is none, or takes too much room.
    #[error("a pattern that is not built")]
    Pattern,
}

impl From<PatternFault> for RunFault {
    ghost from_gives = { λ _ fault. fault ≡ Pattern };

    fn from(_fault: PatternFault) -> RunFault {
        RunFault::Pattern
    }
}

/// Why a run was given up.
pub type RunError = Failed<RunFault>;
