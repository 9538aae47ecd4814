//! Why a text is not parsed.

ghost use Rattle.std.specs.Prelude.{◌≡◌};
ghost use Rattle.cel_parse.specs.Names.{parse_fault_name, parse_fault_place};

use base_containers::Failed;
use cel_lex::LexFault;
use thiserror::Error;

#[derive(Clone, Copy, Debug, PartialEq, Eq, Error)]
pub enum ParseFault {
    /// A fault of the lexer, or a number that only a minus right in front of it would bring into range.
    #[error("{0}")]
    Lex(LexFault),
    /// No text of the grammar goes on with the token that starts here, or ends here.
    #[error("not expected at {place}")]
    Unexpected { place: usize },
    /// A macro, whose name begins here, with another number or form of arguments than it takes.
    #[error("a macro's arguments are wrong at {place}")]
    BadMacro { place: usize },
    #[error("too deep")]
    TooDeep,
}

impl ParseFault {
    /// The name that is printed: of a fault of the lexer its own.
    pub fn name(&self) -> &'static str
        ensures { result.now ≡ parse_fault_name self.now }
    {
        match self {
            ParseFault::Lex(fault) => fault.kind.name(),
            ParseFault::Unexpected { .. } => "Unexpected",
            ParseFault::BadMacro { .. } => "BadMacro",
            ParseFault::TooDeep => "TooDeep",
        }
    }

    /// Where the text has the fault, if it is at one place.
    pub fn place(&self) -> Option<usize>
        ensures { result ≡ parse_fault_place self.now }
    {
        match self {
            ParseFault::Lex(fault) => Some(fault.place),
            ParseFault::Unexpected { place } | ParseFault::BadMacro { place } => Some(*place),
            ParseFault::TooDeep => None,
        }
    }
}

impl From<LexFault> for ParseFault {
    ghost use Rattle.cel_parse.specs.declared.fault.ParseFault.TheVariants.{Lex};

    ghost from_gives = { λ l f. f ≡ Lex l };

    fn from(fault: LexFault) -> ParseFault {
        ParseFault::Lex(fault)
    }
}

/// Why no tree is answered.
pub type ParseError = Failed<ParseFault>;
