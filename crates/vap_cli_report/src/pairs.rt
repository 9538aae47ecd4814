//! The policies of a history with their bindings.

use base_containers::{Items, Text};
use std::alloc::{AllocError, Global};
use std::cmp::Ordering;
use vap_audit::History;
use vap_read::{Content, Event, Object};

/// A policy with one of its bindings, by their names.
#[derive(Drop)]
pub struct BoundPair {
    pub policy: Text,
    pub binding: Text,
}

fn is_pair(pair: &BoundPair, policy: &str, binding: &str) -> bool {
    pair.policy.as_str() == policy && pair.binding.as_str() == binding
}

fn has_pair(pairs: &[BoundPair], policy: &str, binding: &str) -> bool {
    for pair in pairs {
        if is_pair(pair, policy, binding) {
            return true;
        }
    }
    false
}

fn put_object(object: &Object, pairs: &mut Vec<BoundPair>) -> Result<(), AllocError> {
    let Content::Binding(binding) = &object.content else {
        return Ok(());
    };
    let policy = &binding.spec.get().policy_name;
    let name = &object.key.name;
    if has_pair(pairs.as_slice(), policy.as_str(), name.as_str()) {
        return Ok(());
    }
    let policy = policy.copy()?;
    let binding = name.copy()?;
    pairs.push(BoundPair { policy, binding })?;
    Ok(())
}

fn put_event(event: &Event, pairs: &mut Vec<BoundPair>) -> Result<(), AllocError> {
    match event {
        Event::Put(object) => put_object(object.get(), pairs),
        Event::Removed(_) | Event::Passed => Ok(()),
        Event::Replaced(objects) => {
            for (_, object) in objects.get().iter() {
                put_object(object.get(), pairs)?;
            }
            Ok(())
        }
    }
}

fn pair_order(left: &BoundPair, right: &BoundPair) -> Ordering {
    left.policy
        .as_str()
        .cmp(right.policy.as_str())
        .then(left.binding.as_str().cmp(right.binding.as_str()))
}

/// The policies with each binding that the log of the last review has ever put, by their names; one that was removed since is among them.
pub fn pairs_in(alloc: Global, history: &History) -> Result<Items<BoundPair>, AllocError> {
    let mut pairs = Vec::new(alloc);
    if let Some(entry) = history.entry(history.len().saturating_sub(1)) {
        let log = entry.log.get();
        for place in 0..log.len() {
            put_event(&log.at(place).event, &mut pairs)?;
        }
    }
    pairs.sort_by(pair_order)?;
    Ok(Items::from_vec(pairs))
}
