//! What is reported of the policies of a set.

ghost use Rattle.std.specs.Prelude.{◌≡◌, IfOk};
ghost use Rattle.std.specs.List.{list_all};
ghost use Rattle.vap_policy_set.specs.Sets.{policies_of, IsReport};
ghost use Rattle.vap_cli_report.specs.Reports.{is_accepted, is_none, status_of, told};

use crate::found::{accepted_in, causes_of, elsewhere_in};
use crate::outcome::{Accepted, Elsewhere, Outcome, Refused};
use crate::unread::{UnreadKind, unread_kinds_in};
use crate::unused::{Stray, UnknownParams, strays_in, unbound_in, unknown_params_in};
use base_containers::{Items, Text};
use std::alloc::{AllocError, Global};
use vap_cli::Status;
use vap_policy_set::PolicySet;
use vap_read_objects::Objects;

/// What is reported of the policies of a set.
#[derive(Drop)]
pub struct Report {
    pub accepted: Items<Accepted>,
    pub refused: Items<Refused>,
    pub elsewhere: Items<Elsewhere>,
    /// The policies that no binding names.
    pub unbound: Items<Text>,
    /// The bindings whose policy is not there.
    pub strays: Items<Stray>,
    /// The policies whose params are of a kind that is not known.
    pub unknown_params: Items<UnknownParams>,
    /// The kinds whose schema is refused.
    pub unread: Items<UnreadKind>,
}

impl Report {
    /// What is reported of the policies of a set, which is built of these objects.
    pub fn of(alloc: Global, objects: &Objects, set: &PolicySet) -> Result<Report, AllocError>
        ensures { IfOk result (λ report. IsReport (policies_of set.now) (told report.refused)) }
    {
        let misconfigured = set.report(alloc)?;
        let refused = causes_of(alloc, set, misconfigured.as_slice())?;
        let accepted = accepted_in(alloc, set.policies())?;
        let elsewhere = elsewhere_in(alloc, set)?;
        let unbound = unbound_in(alloc, set.policies())?;
        let strays = strays_in(alloc, objects)?;
        let unknown_params = unknown_params_in(alloc, set)?;
        let unread = unread_kinds_in(alloc, set.kinds())?;
        Ok(Report {
            accepted,
            refused,
            elsewhere,
            unbound,
            strays,
            unknown_params,
            unread,
        })
    }

    /// How the program ends after it.
    pub fn status(&self) -> Status
        ensures { result ≡ status_of self.now }
    {
        if are_none(self.refused.as_slice()) && are_accepted(self.elsewhere.as_slice()) {
            Status::Done
        } else {
            Status::Fault
        }
    }
}

fn are_none(refused: &[Refused]) -> bool
    ensures { result ≡ is_none refused.now }
{
    match refused {
        [] => true,
        [_, ..] => false,
    }
}

fn is_accepted(outcome: &Outcome) -> bool
    ensures { result ≡ is_accepted outcome.now }
{
    match outcome {
        Outcome::Accepted(_) => true,
        Outcome::Refused(_, _) => false,
    }
}

fn are_accepted(elsewhere: &[Elsewhere]) -> bool
    ensures { result ≡ list_all (λ e. is_accepted e.outcome) elsewhere.now }
{
    for policy in elsewhere {
        if !is_accepted(&policy.outcome) {
            return false;
        }
    }
    true
}
