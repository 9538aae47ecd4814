//! What a policy found under a binding, over all reviews of a history.

use crate::failures::{Failures, failures_of};
use crate::judging::Bench;
use crate::narrowed::narrowed;
use crate::pairs::BoundPair;
use std::alloc::{AllocError, Global};
use vap_audit::{Entry, History};
use vap_policy_programs::Pair;
use vap_policy_set::{BoundPolicy, PolicySet};
use vap_read::{Content, Event, FailurePolicy, Object, ValidationActions};
use vap_watch::Log;

/// What a policy found under a binding: over how many reviews, how many of these it denied, warned of and kept, how many evaluations
/// ended with an error, and what it charged at most and in all. The estimate is the most that it may charge for one param.
#[derive(Clone, Copy, Debug, PartialEq, Eq)]
pub struct Counts {
    pub reviews: u64,
    pub denied: u64,
    pub warned: u64,
    pub audited: u64,
    pub errors: u64,
    pub greatest: u64,
    pub charged: u64,
    pub estimate: u64,
}

/// What the policy and the binding of a pair say now of failures.
#[derive(Clone, Copy)]
struct Rules {
    fails: bool,
    actions: ValidationActions,
}

fn is_named(object: &Object, name: &str) -> bool {
    object.key.name.as_str() == name
}

/// The rules after an object is put.
fn rules_with(rules: Rules, object: &Object, pair: &BoundPair) -> Rules {
    match &object.content {
        Content::Policy(policy) if is_named(object, pair.policy.as_str()) => Rules {
            fails: matches!(policy.spec.get().failure_policy, FailurePolicy::Fail),
            actions: rules.actions,
        },
        Content::Binding(binding) if is_named(object, pair.binding.as_str()) => Rules {
            fails: rules.fails,
            actions: binding.spec.get().validation_actions,
        },
        _ => rules,
    }
}

fn rules_after(rules: Rules, event: &Event, pair: &BoundPair) -> Rules {
    match event {
        Event::Put(object) => rules_with(rules, object.get(), pair),
        Event::Removed(_) | Event::Passed => rules,
        Event::Replaced(objects) => {
            let mut rules = rules;
            for (_, object) in objects.get().iter() {
                rules = rules_with(rules, object.get(), pair);
            }
            rules
        }
    }
}

fn price_of(pair: &Pair) -> u64 {
    match pair {
        Pair::Runs(programs) => programs.price,
        Pair::Misconfigured(_) => 0,
    }
}

fn price_at(bound: &BoundPolicy) -> u64 {
    let mut price = price_of(bound.other.get().pair());
    for pair in bound.pairs.as_slice() {
        price = price.max(price_of(pair.made.get().pair()));
    }
    price
}

/// The most that a policy of a set may charge for one param, at any kind.
fn price_in(set: &PolicySet) -> u64 {
    let mut price = 0;
    for bound in set.policies() {
        price = price.max(price_at(bound.get()));
    }
    price
}

/// The counts after one more review, for which so much was charged. A review for which nothing was charged and nothing failed counts
/// for nothing: the policy does not match it.
fn with_review(counts: Counts, rules: Rules, failures: Failures, charged: u64) -> Counts {
    if charged == 0 && failures.all == 0 {
        return counts;
    }
    let counted = if rules.fails {
        failures.all
    } else {
        failures.denials
    };
    let has_failed = counted > 0;
    let actions = rules.actions;
    Counts {
        reviews: counts.reviews.saturating_add(1),
        denied: counts
            .denied
            .saturating_add(u64::from(has_failed && actions.deny)),
        warned: counts
            .warned
            .saturating_add(u64::from(has_failed && actions.warn)),
        audited: counts
            .audited
            .saturating_add(u64::from(has_failed && actions.audit)),
        errors: counts.errors.saturating_add(failures.errors),
        greatest: counts.greatest.max(charged),
        charged: counts.charged.saturating_add(charged),
        estimate: counts.estimate,
    }
}

/// Takes the events of a log after the first ones, for a pair, and answers what its policy and its binding then say.
fn take_events(
    bench: &mut Bench,
    log: &Log,
    from: usize,
    mut rules: Rules,
    pair: &BoundPair,
) -> Result<Rules, AllocError> {
    let alloc = bench.alloc;
    for place in from..log.len() {
        let event = &log.at(place).event;
        rules = rules_after(rules, event, pair);
        bench.take(narrowed(alloc, event, pair)?)?;
    }
    bench.publish()?;
    Ok(rules)
}

fn counted(
    bench: &mut Bench,
    entry: &Entry,
    rules: Rules,
    counts: Counts,
) -> Result<Counts, AllocError> {
    let Some(verdict) = bench.judge(entry)? else {
        return Ok(counts);
    };
    let failures = failures_of(bench.alloc, &verdict)?;
    Ok(with_review(counts, rules, failures, verdict.charged))
}

/// The rules before there is a policy and a binding.
fn no_rules() -> Rules {
    Rules {
        fails: true,
        actions: ValidationActions {
            deny: false,
            warn: false,
            audit: false,
        },
    }
}

/// What is found if there is no review.
fn no_counts() -> Counts {
    Counts {
        reviews: 0,
        denied: 0,
        warned: 0,
        audited: 0,
        errors: 0,
        greatest: 0,
        charged: 0,
        estimate: 0,
    }
}

/// What a policy found under a binding, over all reviews of a history.
pub fn counts_of(alloc: Global, history: &History, pair: &BoundPair) -> Result<Counts, AllocError> {
    let mut bench = Bench::new(alloc)?;
    let mut rules = no_rules();
    let mut counts = no_counts();
    let mut taken = 0;
    for number in 0..history.len() {
        let entry = history.at(number);
        let log = entry.log.get();
        if taken < log.len() {
            rules = take_events(&mut bench, log, taken, rules, pair)?;
            taken = log.len();
            counts.estimate = counts.estimate.max(price_in(bench.desk.snapshot().set()));
        }
        counts = counted(&mut bench, entry, rules, counts)?;
    }
    Ok(counts)
}
