ghost use Rattle.std.specs.Prelude.{◌≡◌};
ghost use Rattle.vap_cli.specs.declared.failure.CheckFailure.TheVariants.{OutOfMemory};

use crate::status::Status;
use base_containers::LineError;
use std::alloc::AllocError;
use thiserror::Error;

/// Why a file is not checked.
#[derive(Clone, Copy, Debug, PartialEq, Eq, Error)]
pub enum CheckFailure {
    #[error("the file could not be read")]
    Read,
    #[error("the answer could not be written")]
    Write,
    #[error("out of memory")]
    OutOfMemory,
}

impl CheckFailure {
    ghost use Rattle.std.specs.Prelude.{◌≡◌};
    ghost use Rattle.vap_cli.specs.Report.{status_without};

    /// How the program ends if a file is not checked.
    pub fn status(self) -> Status
        ensures { result ≡ status_without self }
    {
        match self {
            CheckFailure::Read | CheckFailure::Write => Status::Stream,
            CheckFailure::OutOfMemory => Status::OutOfMemory,
        }
    }
}

impl From<AllocError> for CheckFailure {
    ghost from_gives = { λ _ e. e ≡ OutOfMemory };

    fn from(_error: AllocError) -> CheckFailure {
        CheckFailure::OutOfMemory
    }
}

impl From<LineError> for CheckFailure {
    ghost use Rattle.vap_cli.specs.Documents.{failure_of_line};

    ghost from_gives = { λ error failure. failure ≡ failure_of_line error };

    fn from(error: LineError) -> CheckFailure {
        match error {
            LineError::Read => CheckFailure::Read,
            LineError::OutOfMemory => CheckFailure::OutOfMemory,
        }
    }
}
