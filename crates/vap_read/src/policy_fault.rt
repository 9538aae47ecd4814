//! Why a policy or a binding is refused.

ghost use Rattle.std.specs.Prelude.{◌≡◌};
ghost use Rattle.vap_read.specs.PolicyNames.{policy_fault_name};

use base_containers::Failed;
use thiserror::Error;
use vap_match::MatchFault;

/// The faults by their numbers, from 1 on.
#[derive(Clone, Copy, Debug, PartialEq, Eq, Error)]
pub enum PolicyFault {
    /// A policy has no rule in `resourceRules`, a needed member is absent, or a member is of a wrong kind or none of its
    /// words. This does not include what rules and selectors hold, or the action of a `paramRef`.
    #[error("a member that is absent or not understood")]
    MissingField,
    /// A binding both denies and warns.
    #[error("both Deny and Warn")]
    DenyWithWarn,
    /// There are more than 64 match conditions, 20 annotations, 128 variables or 128 validations.
    #[error("too many conditions, annotations, variables or validations")]
    TooMany,
    /// A message has a line break, or an expression has one and there is no message in its place.
    #[error("a message that has a line break or is needed")]
    BadMessage,
    /// A `paramRef` has both a name and a selector or neither, or its action is neither Allow nor Deny.
    #[error("a reference to params that is not understood")]
    BadParamRef,
    /// Two match conditions or two variables have one name, or two annotations one key.
    #[error("a name that stands twice")]
    DuplicateName,
    /// Rules or a selector have a fault; this is the least of their faults.
    #[error("{0}")]
    Rules(MatchFault),
}

impl PolicyFault {
    /// The name that is printed: a fault of rules has its own.
    pub fn name(&self) -> &'static str
        ensures { result.now ≡ policy_fault_name self.now }
    {
        match self {
            PolicyFault::MissingField => "MissingField",
            PolicyFault::DenyWithWarn => "DenyWithWarn",
            PolicyFault::TooMany => "TooMany",
            PolicyFault::BadMessage => "BadMessage",
            PolicyFault::BadParamRef => "BadParamRef",
            PolicyFault::DuplicateName => "DuplicateName",
            PolicyFault::Rules(fault) => fault.name(),
        }
    }
}

pub type PolicyError = Failed<PolicyFault>;
