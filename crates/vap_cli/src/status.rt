//! How the program ends.

/// The exit status.
#[derive(Clone, Copy, Debug, PartialEq, Eq)]
pub enum Status {
    Done,
    /// The answer is an error or a refusal.
    Fault,
    BadCommandLine,
    /// A read or a write failed.
    Stream,
    OutOfMemory,
}

impl Status {
    ghost use Rattle.std.specs.Prelude.{◌≡◌};
    ghost use Rattle.vap_cli.specs.Status.{code_of};

    /// The number with which the process ends.
    pub fn code(self) -> u8
        ensures { result ≡ code_of self }
    {
        match self {
            Status::Done => 0,
            Status::Fault => 1,
            Status::BadCommandLine => 2,
            Status::Stream => 3,
            Status::OutOfMemory => 4,
        }
    }
}
