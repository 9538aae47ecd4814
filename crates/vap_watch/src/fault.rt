//! Why an event is not staged, why nothing is published, and why there is no reader, or why one sees nothing.

ghost use Rattle.std.specs.Prelude.{◌≡◌};

use base_containers::Failed;
use thiserror::Error;
use vap_policy_set::BuildFault;

/// The faults of staging by their numbers, from 1 on, and out of memory.
#[derive(Clone, Copy, Debug, PartialEq, Eq, Error)]
pub enum StageFault {
    #[error("the log has as many events as it may have")]
    LogFull,
    #[error("there would be more objects than there may be")]
    TooManyObjects,
    #[error("out of memory")]
    OutOfMemory,
}

/// Why nothing is published.
#[derive(Clone, Copy, Debug, PartialEq, Eq, Error)]
pub enum PublishFault {
    /// The verifier refused an image that was compiled for a policy.
    #[error("an expression's code is not accepted")]
    Unverified,
}

impl From<BuildFault> for PublishFault {
    ghost use Rattle.vap_watch.specs.declared.fault.PublishFault.TheVariants.{Unverified};

    ghost from_gives = { λ _ fault. fault ≡ Unverified };

    fn from(_fault: BuildFault) -> PublishFault {
        PublishFault::Unverified
    }
}

/// Why nothing is published.
pub type PublishError = Failed<PublishFault>;

/// The faults of readers by their numbers, from 1 on.
#[derive(Clone, Copy, Debug, PartialEq, Eq, Error)]
pub enum ReaderFault {
    #[error("there are as many readers as there may be")]
    NoPlace,
    #[error("the writer is gone")]
    Gone,
}

/// Why there is no reader, or why one sees nothing.
pub type ReaderError = Failed<ReaderFault>;
