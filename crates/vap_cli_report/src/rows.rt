//! Policies at kinds, in the order in which they are reported.

use crate::cause::Cause;
use crate::charges::Charges;
use crate::outcome::{Accepted, Elsewhere, Outcome, Refused};
use crate::report::Report;
use std::alloc::{AllocError, Global};
use std::cmp::Ordering;
use vap_policy_programs::PairFault;

/// The names of a kind.
#[derive(Clone, Copy)]
pub struct KindNames<'a> {
    pub group: &'a str,
    pub version: &'a str,
    pub kind: &'a str,
}

/// What a policy is at a kind.
#[derive(Clone, Copy)]
pub enum Finding<'a> {
    Accepted(&'a Charges),
    Refused(PairFault, &'a Cause),
}

/// A policy at a kind, or at those that are not known.
#[derive(Clone, Copy)]
pub struct Row<'a> {
    pub policy: &'a str,
    pub at: Option<KindNames<'a>>,
    pub finding: Finding<'a>,
}

fn put_accepted<'a>(accepted: &'a [Accepted], rows: &mut Vec<Row<'a>>) -> Result<(), AllocError> {
    for item in accepted {
        rows.push(Row {
            policy: item.policy.as_str(),
            at: Some(KindNames {
                group: item.group.as_str(),
                version: item.version.as_str(),
                kind: item.kind.as_str(),
            }),
            finding: Finding::Accepted(&item.charges),
        })?;
    }
    Ok(())
}

fn put_refused<'a>(refused: &'a [Refused], rows: &mut Vec<Row<'a>>) -> Result<(), AllocError> {
    for item in refused {
        let pair = &item.misconfigured;
        rows.push(Row {
            policy: pair.policy.as_str(),
            at: Some(KindNames {
                group: pair.group.as_str(),
                version: pair.version.as_str(),
                kind: pair.kind.as_str(),
            }),
            finding: Finding::Refused(pair.fault, &item.cause),
        })?;
    }
    Ok(())
}

fn finding_of(outcome: &Outcome) -> Finding<'_> {
    match outcome {
        Outcome::Accepted(charges) => Finding::Accepted(charges),
        Outcome::Refused(fault, cause) => Finding::Refused(*fault, cause),
    }
}

fn put_elsewhere<'a>(
    elsewhere: &'a [Elsewhere],
    rows: &mut Vec<Row<'a>>,
) -> Result<(), AllocError> {
    for item in elsewhere {
        rows.push(Row {
            policy: item.policy.as_str(),
            at: None,
            finding: finding_of(&item.outcome),
        })?;
    }
    Ok(())
}

fn kind_order(left: Option<KindNames<'_>>, right: Option<KindNames<'_>>) -> Ordering {
    match (left, right) {
        (None, None) => Ordering::Equal,
        (None, Some(_)) => Ordering::Greater,
        (Some(_), None) => Ordering::Less,
        (Some(left), Some(right)) => left
            .group
            .cmp(right.group)
            .then(left.version.cmp(right.version))
            .then(left.kind.cmp(right.kind)),
    }
}

fn row_order(left: &Row<'_>, right: &Row<'_>) -> Ordering {
    left.policy
        .cmp(right.policy)
        .then(kind_order(left.at, right.at))
}

/// The policies of a report at each kind: by the policy's name, by group, by version and by kind.
pub fn rows_of(alloc: Global, report: &Report) -> Result<Vec<Row<'_>>, AllocError> {
    let mut rows = Vec::new(alloc);
    put_accepted(report.accepted.as_slice(), &mut rows)?;
    put_refused(report.refused.as_slice(), &mut rows)?;
    put_elsewhere(report.elsewhere.as_slice(), &mut rows)?;
    rows.sort_by(row_order)?;
    Ok(rows)
}
