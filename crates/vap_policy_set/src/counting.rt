//! How many policies at kinds were compiled at a making of a set.

use crate::bound::{BoundPolicy, KindPair};
use crate::made::MadePair;
use base_containers::Shared;

fn one_at(round: u64, made: &MadePair) -> u64 {
    if made.round() == round { 1 } else { 0 }
}

fn pairs_at(round: u64, pairs: &[KindPair]) -> u64 {
    let mut count: u64 = 0;
    for pair in pairs {
        count = count.saturating_add(one_at(round, pair.made.get()));
    }
    count
}

/// How many of these policies at kinds were compiled at a making.
pub fn compiled_at(round: u64, policies: &[Shared<BoundPolicy>]) -> u64 {
    let mut count: u64 = 0;
    for shared in policies {
        let policy = shared.get();
        let pairs = pairs_at(round, policy.pairs.as_slice());
        count = count
            .saturating_add(pairs)
            .saturating_add(one_at(round, policy.other.get()));
    }
    count
}
