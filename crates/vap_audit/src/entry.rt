//! Entries.

use base_containers::Shared;
use vap_match::Request;
use vap_policy_verdict::Verdict;
use vap_watch::Log;

/// What was decided in one call, and at which log. Calls and workers are counted from 0.
#[derive(Drop)]
pub struct Entry {
    pub call: u64,
    pub log: Shared<Log>,
    pub request: Request,
    pub verdict: Verdict,
    pub worker: u64,
}
