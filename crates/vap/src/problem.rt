//! Why the program prints no answer.

ghost use Rattle.std.specs.Prelude.{◌≡◌};
ghost use Rattle.vap_cli.specs.declared.eval.EvalError.TheVariants as failure;
ghost use Rattle.vap.specs.Problem.{mistake_status, replay_status};
ghost use Rattle.vap.specs.declared.problem.Problem.TheVariants.{Mistaken, Unanswered, Unchecked};

use std::alloc::AllocError;
use std::io;
use vap_cli::{CheckFailure, EvalError, Mistake, Status};
use vap_cli_replay::ReplayError;

/// Why the program prints no answer.
#[derive(Drop)]
pub enum Problem {
    /// The words ask for no task.
    Mistaken(Mistake),
    /// A word is not text in UTF-8.
    NotText,
    /// The file does not open.
    NotOpened,
    Unanswered(EvalError),
    Unchecked(CheckFailure),
    Unreplayed(ReplayError),
}

impl From<AllocError> for Problem {
    ghost from_gives = { λ _ p. p ≡ Unanswered failure.OutOfMemory };

    fn from(_error: AllocError) -> Problem {
        Problem::Unanswered(EvalError::OutOfMemory)
    }
}

impl From<EvalError> for Problem {
    ghost from_gives = { λ error p. p ≡ Unanswered error };

    fn from(error: EvalError) -> Problem {
        Problem::Unanswered(error)
    }
}

impl From<CheckFailure> for Problem {
    ghost from_gives = { λ error p. p ≡ Unchecked error };

    fn from(error: CheckFailure) -> Problem {
        Problem::Unchecked(error)
    }
}

impl From<Mistake> for Problem {
    ghost from_gives = { λ mistake p. p ≡ Mistaken mistake };

    fn from(mistake: Mistake) -> Problem {
        Problem::Mistaken(mistake)
    }
}

/// What is reported of the words before they are read.
impl From<io::Error> for Problem {
    fn from(error: io::Error) -> Problem {
        if error.kind() == io::ErrorKind::OutOfMemory {
            Problem::Unanswered(EvalError::OutOfMemory)
        } else {
            Problem::NotText
        }
    }
}

impl Problem {
    ghost use Rattle.vap.specs.Problem.{status_of};

    /// What is reported of a file that does not open.
    pub fn not_opened(error: &io::Error) -> Problem {
        if error.kind() == io::ErrorKind::OutOfMemory {
            Problem::Unanswered(EvalError::OutOfMemory)
        } else {
            Problem::NotOpened
        }
    }

    /// How the program ends.
    pub fn status(&self) -> Status
        ensures { result ≡ status_of self.now }
    {
        match self {
            Problem::Mistaken(mistake) => mistake_status(mistake),
            Problem::NotText => Status::BadCommandLine,
            Problem::NotOpened => Status::Stream,
            Problem::Unanswered(error) => error.status(),
            Problem::Unchecked(error) => error.status(),
            Problem::Unreplayed(error) => replay_status(*error),
        }
    }

    /// Prints help and the version to standard output, and what went wrong to standard error.
    pub fn print<R: Print + Eprint>(&self, rt: &R) -> io::Result<()> {
        match self {
            Problem::Mistaken(mistake) => mistake.print(rt),
            Problem::NotText => {
                eprintln!(rt;
                    "error: an argument is not text in UTF-8\n\nUsage: vap <COMMAND>\n\nFor more information, try '--help'."
                )
            }
            Problem::NotOpened => eprintln!(rt; "vap: the file cannot be opened"),
            Problem::Unchecked(CheckFailure::Read) => eprintln!(rt; "vap: the file cannot be read"),
            Problem::Unanswered(EvalError::Write) | Problem::Unchecked(CheckFailure::Write) => {
                eprintln!(rt; "vap: the standard output cannot be written")
            }
            Problem::Unanswered(EvalError::OutOfMemory)
            | Problem::Unchecked(CheckFailure::OutOfMemory) => eprintln!(rt; "vap: out of memory"),
            Problem::Unreplayed(ReplayError::Line { line, fault }) => {
                eprintln!(rt; "line {line}: {}", fault.name())
            }
            Problem::Unreplayed(error) => eprintln!(rt; "vap: {error}"),
        }
    }
}

/// How the program ends if the words ask for no task.
fn mistake_status(mistake: &Mistake) -> Status
    ensures { result ≡ mistake_status mistake.now }
{
    match mistake {
        Mistake::OutOfMemory => Status::OutOfMemory,
        _ if mistake.is_answered() => Status::Done,
        _ => Status::BadCommandLine,
    }
}

/// How the program ends if a replay ends before its input.
fn replay_status(error: ReplayError) -> Status
    ensures { result ≡ replay_status error }
{
    match error {
        ReplayError::Line { .. } => Status::Fault,
        ReplayError::Read | ReplayError::Write => Status::Stream,
        ReplayError::OutOfMemory => Status::OutOfMemory,
    }
}
