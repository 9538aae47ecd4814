//! Why a call is not answered.

ghost use Rattle.std.specs.Prelude.{◌≡◌};
ghost use Rattle.vap_plane_gathering.specs.Faults.{plane_fault_name};

use base_containers::Failed;
use thiserror::Error;

/// The faults of calls by their numbers, from 1 on, each with its call.
#[derive(Clone, Copy, Debug, PartialEq, Eq, Error)]
pub enum PlaneFault {
    #[error("call {0} is answered more than once")]
    Double(u64),
    #[error("call {0} is answered, which nobody made")]
    Stranger(u64),
    #[error("call {0} is not answered")]
    Lost(u64),
    /// A pattern that was built when the set was built is not built again.
    #[error("call {0} is not judged")]
    Judge(u64),
    #[error("call {0} is not recorded: the history has as many entries as it may have")]
    Audit(u64),
    #[error("call {0} is not judged: the writer is gone")]
    Gone(u64),
}

impl PlaneFault {
    /// The name that is printed.
    pub fn name(&self) -> &'static str
        ensures { result.now ≡ plane_fault_name self.now }
    {
        match self {
            PlaneFault::Double(_) => "Double",
            PlaneFault::Stranger(_) => "Stranger",
            PlaneFault::Lost(_) => "Lost",
            PlaneFault::Judge(_) => "Judge",
            PlaneFault::Audit(_) => "Audit",
            PlaneFault::Gone(_) => "Gone",
        }
    }
}

/// Why a call is not answered.
pub type PlaneError = Failed<PlaneFault>;
