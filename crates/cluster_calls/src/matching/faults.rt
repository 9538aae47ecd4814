//! The numbers of faults, and what is printed for them.

use calls_notation::{Asked, unknown};
use std::alloc::{AllocError, Global};
use vap_match::{MatchFault, ReviewFault};
use vap_read::{EventFault, PolicyFault};

/// The answer to a call of faults, each asked by its name: the number, if it has one, and what is printed for it.
pub fn answer(alloc: Global, asked: &Asked) -> Result<String, AllocError> {
    match asked.call {
        "rules" => of_rules(alloc, rules_fault(asked.input)),
        "review" => of_review(alloc, review_fault(asked.input)),
        "policy" => of_policy(alloc, policy_fault(asked.input)),
        "event" => of_event(alloc, event_fault(asked.input)),
        _ => unknown(alloc),
    }
}

fn of_rules(alloc: Global, fault: MatchFault) -> Result<String, AllocError> {
    let number = fault as u8;
    format!(in alloc; "{number} {}, {fault}", fault.name())
}

fn of_review(alloc: Global, fault: ReviewFault) -> Result<String, AllocError> {
    let number = fault as u8;
    format!(in alloc; "{number} {}, {fault}", fault.name())
}

fn of_policy(alloc: Global, fault: PolicyFault) -> Result<String, AllocError> {
    format!(in alloc; "{}, {fault}", fault.name())
}

fn of_event(alloc: Global, fault: EventFault) -> Result<String, AllocError> {
    format!(in alloc; "{}, {fault}", fault.name())
}

fn rules_fault(name: &str) -> MatchFault {
    match name {
        "BadOperator" => MatchFault::BadOperator,
        "BadScope" => MatchFault::BadScope,
        _ => MatchFault::EmptyRule,
    }
}

fn review_fault(name: &str) -> ReviewFault {
    match name {
        "BadReview" => ReviewFault::BadReview,
        _ => ReviewFault::OverLimit,
    }
}

/// The fault of a policy, a fault of its rules if it has no other of this name.
fn policy_fault(name: &str) -> PolicyFault {
    match name {
        "MissingField" => PolicyFault::MissingField,
        "DenyWithWarn" => PolicyFault::DenyWithWarn,
        "TooMany" => PolicyFault::TooMany,
        "BadMessage" => PolicyFault::BadMessage,
        "BadParamRef" => PolicyFault::BadParamRef,
        "DuplicateName" => PolicyFault::DuplicateName,
        _ => PolicyFault::Rules(rules_fault(name)),
    }
}

/// The fault of an event, a fault of a policy if it has no other of this name.
fn event_fault(name: &str) -> EventFault {
    match name {
        "BadType" => EventFault::BadType,
        "BadObject" => EventFault::BadObject,
        _ => EventFault::OfPolicy(policy_fault(name)),
    }
}
