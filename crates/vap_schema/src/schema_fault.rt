//! Why a schema is refused.

ghost use Rattle.std.specs.Prelude.{◌≡◌};
ghost use Rattle.vap_schema.specs.SchemaNames.{schema_fault_name};

use crate::own_fault::OwnFault;
use base_containers::Failed;
use thiserror::Error;

#[derive(Clone, Copy, Debug, PartialEq, Eq, Error)]
pub enum SchemaFault {
    /// Nothing says what is there.
    #[error("a schema that gives no type")]
    NoType = 1,
    /// A keyword is of a wrong kind or out of range, or may not be there, or a needed one is absent.
    #[error("a keyword that is not understood")]
    BadKeyword = 2,
    /// More than 100 schemas are inside each other.
    #[error("too deep")]
    TooDeep = 3,
}

impl SchemaFault {
    /// The name that is printed.
    pub fn name(&self) -> &'static str
        ensures { result.now ≡ schema_fault_name self.now }
    {
        match self {
            SchemaFault::NoType => "NoType",
            SchemaFault::BadKeyword => "BadKeyword",
            SchemaFault::TooDeep => "TooDeep",
        }
    }
}

pub type SchemaError = Failed<SchemaFault>;

impl From<SchemaFault> for Failed<SchemaFault> {
    ghost use Rattle.base_containers.specs.declared.failed.Failed.TheVariants.{Fault};

    ghost from_gives = { λ fault e. e ≡ Fault fault };

    fn from(fault: SchemaFault) -> Failed<SchemaFault> {
        Failed::Fault(fault)
    }
}

impl From<OwnFault> for Failed<SchemaFault> {
    ghost use Rattle.base_containers.specs.declared.failed.Failed.TheVariants.{Fault};
    ghost use Rattle.vap_schema.specs.Keywords.{fault_of};

    ghost from_gives = { λ own e. e ≡ Fault (fault_of own) };

    fn from(own: OwnFault) -> Failed<SchemaFault> {
        Failed::Fault(own.fault())
    }
}
