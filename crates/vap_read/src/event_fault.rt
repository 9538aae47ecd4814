//! Why a line is no event.

ghost use Rattle.std.specs.Prelude.{◌≡◌};
ghost use Rattle.vap_read.specs.EventNames.{event_fault_name};

use crate::policy_fault::PolicyFault;
use base_containers::Failed;
use thiserror::Error;

/// The faults by their numbers, from 1 on.
#[derive(Clone, Copy, Debug, PartialEq, Eq, Error)]
pub enum EventFault {
    /// The word of a watch event is none of the five, or the line is neither a watch event nor a List.
    #[error("a line that is no event")]
    BadType,
    /// An object has no key or its metadata is not of its form, or a List has no items.
    #[error("an object that is not understood")]
    BadObject,
    /// A policy or a binding has a fault; this is the least of its faults.
    #[error("{0}")]
    OfPolicy(PolicyFault),
}

impl EventFault {
    /// The name that is printed: a fault of a policy or a binding has its own.
    pub fn name(&self) -> &'static str
        ensures { result.now ≡ event_fault_name self.now }
    {
        match self {
            EventFault::BadType => "BadType",
            EventFault::BadObject => "BadObject",
            EventFault::OfPolicy(fault) => fault.name(),
        }
    }
}

impl From<PolicyFault> for EventFault {
    ghost use Rattle.vap_read.specs.declared.event_fault.EventFault.TheVariants.{OfPolicy};

    ghost from_gives = { λ fault told. told ≡ OfPolicy fault };

    fn from(fault: PolicyFault) -> EventFault {
        EventFault::OfPolicy(fault)
    }
}

pub type EventError = Failed<EventFault>;
