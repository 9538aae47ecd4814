ghost use Rattle.std.specs.Prelude.{◌≡◌};
ghost use Rattle.base_containers.specs.Failures.{Widens};
ghost use Rattle.base_containers.specs.declared.failed.Failed.TheVariants.{OutOfMemory};

use std::alloc::{AllocError, AllocFailed};
use std::fmt::Display;
use thiserror::Error;

/// Why a call gives no value.
#[derive(Clone, Copy, Debug, PartialEq, Eq, Drop, Error)]
#[error_bound(F: Display)]
pub enum Failed<F> {
    /// An allocation was refused.
    #[error("out of memory")]
    OutOfMemory,
    /// The fault for which there is no value.
    #[error("{0}")]
    Fault(F),
}

impl<F> Failed<F> {
    /// The same failure, with its fault reported one level up.
    pub fn widened<G: From<F>>(self) -> Failed<G>
        ensures { Widens G.from_gives self result }
    {
        match self {
            Failed::OutOfMemory => Failed::OutOfMemory,
            Failed::Fault(fault) => Failed::Fault(G::from(fault)),
        }
    }
}

impl<F> From<AllocError> for Failed<F> {
    ghost from_gives = { λ _ e. e ≡ OutOfMemory };

    fn from(_error: AllocError) -> Failed<F> {
        Failed::OutOfMemory
    }
}

impl<F, T: Drop> From<AllocFailed<T>> for Failed<F> {
    ghost from_gives = { λ _ e. e ≡ OutOfMemory };

    fn from(_error: AllocFailed<T>) -> Failed<F> {
        Failed::OutOfMemory
    }
}
