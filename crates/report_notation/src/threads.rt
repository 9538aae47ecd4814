//! That values, patterns, events and verdicts go from thread to thread: what compiles only if they may.

use cel_operators::{Matchers, Patterns};
use cel_value::{CelError, CelType, Value};
use vap_policy_verdict::unfit_verdict;
use vap_read::Event;

fn crosses_threads<T: Send + Sync>(_value: &T) -> bool {
    true
}

fn is_sent<T: Send>(_value: &T) -> bool {
    true
}

#[test]
fn values_and_types_cross_threads(rt: HostRuntime) {
    assert!(rt; crosses_threads(&Value::Null));
    assert!(rt; crosses_threads(&CelType::Never));
    assert!(rt; crosses_threads(&CelError::Overflow));
}

#[test]
fn matchers_are_sent(rt: HostRuntime) {
    assert!(rt; is_sent(&Matchers::new(rt.alloc())));
    assert!(rt; is_sent(&Patterns::new(rt.alloc())));
}

#[test]
fn events_cross_threads(rt: HostRuntime) {
    assert!(rt; crosses_threads(&Event::Passed));
}

#[test]
fn verdicts_cross_threads(rt: HostRuntime) {
    let verdict = unfit_verdict(rt.alloc(), "a", 1).expect(&rt, "out of memory");
    assert!(rt; crosses_threads(&verdict));
}
