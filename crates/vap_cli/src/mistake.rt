//! Why the words of a command line ask for no task.

ghost use Rattle.std.specs.Prelude.{◌≡◌};
ghost use Rattle.vap_cli.specs.declared.mistake.Mistake.TheVariants.{OutOfMemory};

use clap::error::ErrorKind;
use std::alloc::AllocError;
use std::io;

/// Why the words ask for no task.
#[derive(Drop)]
pub enum Mistake {
    /// A mistake in the words, or a request for help or for the version.
    Words(clap::Error),
    /// A word that begins with a minus is in the place of the expression.
    Minus,
    /// What the words ask for is not among them.
    NoTask,
    OutOfMemory,
}

impl From<AllocError> for Mistake {
    ghost from_gives = { λ _ m. m ≡ OutOfMemory };

    fn from(_error: AllocError) -> Mistake {
        Mistake::OutOfMemory
    }
}

impl From<clap::Error> for Mistake {
    fn from(error: clap::Error) -> Mistake {
        if error.kind() == ErrorKind::OutOfMemory {
            Mistake::OutOfMemory
        } else {
            Mistake::Words(error)
        }
    }
}

impl Mistake {
    ghost use Rattle.vap_cli.specs.Mistake.{is_answered};

    /// Whether the words ask for help or for the version, which `print` then answers.
    pub fn is_answered(&self) -> bool
        ensures { result ≡ is_answered self.now }
    {
        match self {
            Mistake::Words(error) => matches!(
                error.kind(),
                ErrorKind::DisplayHelp | ErrorKind::DisplayVersion
            ),
            Mistake::Minus | Mistake::NoTask | Mistake::OutOfMemory => false,
        }
    }

    /// Prints help and the version to standard output, and what is wrong to standard error.
    pub fn print<R: Print + Eprint>(&self, rt: &R) -> io::Result<()> {
        match self {
            Mistake::Words(error) => error.print(rt),
            Mistake::Minus => bad_words(
                rt,
                "no flag begins like that; an expression that begins with a minus goes after `--`, or in parentheses",
            ),
            Mistake::NoTask => bad_words(rt, "the words ask for nothing"),
            Mistake::OutOfMemory => eprintln!(rt; "vap: out of memory"),
        }
    }
}

fn bad_words(rt: &impl Eprint, what: &str) -> io::Result<()> {
    eprintln!(rt; "error: {what}\n\nUsage: vap <COMMAND>\n\nFor more information, try '--help'.")
}
