//! Why a document does not fit.

ghost use Rattle.std.specs.Prelude.{◌≡◌};
ghost use Rattle.vap_schema.specs.FitNames.{fit_fault_name};

use base_containers::{Failed, Text};
use std::fmt;
use thiserror::Error;

#[derive(Clone, Copy, Debug, PartialEq, Eq, Error)]
pub enum FitFaultKind {
    /// The type has no value of the document's kind, or a text does not spell one.
    #[error("a value of another kind")]
    WrongKind = 1,
    /// A required field is absent.
    #[error("a required field that is absent")]
    Missing = 2,
    /// There is null where the type has none.
    #[error("null where it is not allowed")]
    NullHere = 3,
    /// A text, a list, a map or a key is longer than the type allows.
    #[error("longer than allowed")]
    OverLimit = 4,
    /// An integer is past the greatest one that a sign leaves room for.
    #[error("an integer out of range")]
    IntRange = 5,
}

impl FitFaultKind {
    /// The name that is printed.
    pub fn name(&self) -> &'static str
        ensures { result.now ≡ fit_fault_name self.now }
    {
        match self {
            FitFaultKind::WrongKind => "WrongKind",
            FitFaultKind::Missing => "Missing",
            FitFaultKind::NullHere => "NullHere",
            FitFaultKind::OverLimit => "OverLimit",
            FitFaultKind::IntRange => "IntRange",
        }
    }
}

/// The first fault of a document, and the path at which it occurs, such as `object.spec.items[2].name`.
#[derive(Debug, Drop)]
pub struct FitFault {
    pub path: Text,
    pub kind: FitFaultKind,
}

impl fmt::Display for FitFault {
    ghost use Rattle.std.specs.Prelude.{Some};
    ghost use Rattle.vap_schema.specs.FitNames.{fit_fault_text};

    ghost output = { λ fault. Some (fit_fault_text fault) };

    fn fmt<W: fmt::Write>(&self, f: &mut fmt::Formatter<W>) -> fmt::Result {
        let path = self.path.as_str();
        let name = self.kind.name();
        write!(f, "{path}: {name}")
    }
}

pub type FitError = Failed<FitFault>;
