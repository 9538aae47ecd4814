//! Why a replay ends before its input.

ghost use Rattle.std.specs.Prelude.{◌≡◌};
ghost use Rattle.vap_cli_replay.specs.Sessions.{unpublished, unstaged};

use base_containers::LineError;
use std::alloc::{AllocError, AllocFailed};
use thiserror::Error;
use vap_cli_lines::LineFault;
use vap_watch::{PublishError, PublishFault, StageFault};

/// Why a replay ends before its input. Lines are counted from 1, empty ones too.
#[derive(Clone, Copy, Debug, PartialEq, Eq, Error)]
pub enum ReplayError {
    #[error("line {line}: {fault}")]
    Line { line: u64, fault: LineFault },
    /// A read failed, or there were as many as there may be.
    #[error("the input could not be read")]
    Read,
    #[error("an answer could not be written")]
    Write,
    #[error("out of memory")]
    OutOfMemory,
}

impl From<AllocError> for ReplayError {
    ghost use Rattle.vap_cli_replay.specs.declared.fault.ReplayError.TheVariants.{OutOfMemory};

    ghost from_gives = { λ _ e. e ≡ OutOfMemory };

    fn from(_error: AllocError) -> ReplayError {
        ReplayError::OutOfMemory
    }
}

impl<T: Drop> From<AllocFailed<T>> for ReplayError {
    ghost use Rattle.vap_cli_replay.specs.declared.fault.ReplayError.TheVariants.{OutOfMemory};

    ghost from_gives = { λ _ e. e ≡ OutOfMemory };

    fn from(_error: AllocFailed<T>) -> ReplayError {
        ReplayError::OutOfMemory
    }
}

impl From<LineError> for ReplayError {
    ghost use Rattle.vap_cli_replay.specs.Sessions.{error_of_line};

    ghost from_gives = { λ error e. e ≡ error_of_line error };

    fn from(error: LineError) -> ReplayError {
        match error {
            LineError::Read => ReplayError::Read,
            LineError::OutOfMemory => ReplayError::OutOfMemory,
        }
    }
}

/// The refusal of a line whose event is not staged.
pub(crate) fn unstaged(line: u64, fault: StageFault) -> ReplayError
    ensures { result ≡ unstaged line fault }
{
    let fault = match fault {
        StageFault::LogFull => LineFault::LogFull,
        StageFault::TooManyObjects => LineFault::TooManyObjects,
        StageFault::OutOfMemory => return ReplayError::OutOfMemory,
    };
    ReplayError::Line { line, fault }
}

/// The refusal of a line whose event is not published.
pub(crate) fn unpublished(line: u64, error: PublishError) -> ReplayError
    ensures { result ≡ unpublished line error }
{
    match error {
        PublishError::Fault(PublishFault::Unverified) => ReplayError::Line {
            line,
            fault: LineFault::Unverified,
        },
        PublishError::OutOfMemory => ReplayError::OutOfMemory,
    }
}
