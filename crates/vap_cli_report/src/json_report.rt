//! A report for machines: one JSON document, the members of each object by the bytes of their keys.

use crate::charges::Estimate;
use crate::field::Field;
use crate::outcome::Elsewhere;
use crate::report::Report;
use crate::rows::{Finding, KindNames, Row, rows_of};
use crate::unread::UnreadKind;
use crate::unused::{Stray, UnknownParams};
use crate::words::{text_of, words_of};
use base_containers::Text;
use cel_expression::Refusal;
use json::Writer;
use std::alloc::{AllocError, Global};
use vap_cli::Status;
use vap_policy_programs::PairFault;

fn put_text(name: &str, text: &str, out: &mut Writer) -> Result<(), AllocError> {
    out.key(name)?;
    out.string(text)
}

fn put_number(name: &str, number: u64, out: &mut Writer) -> Result<(), AllocError> {
    out.key(name)?;
    out.u64(number)
}

fn put_optional_text(name: &str, text: Option<&str>, out: &mut Writer) -> Result<(), AllocError> {
    out.key(name)?;
    match text {
        Some(text) => out.string(text),
        None => out.null(),
    }
}

fn put_optional_number(
    name: &str,
    number: Option<u64>,
    out: &mut Writer,
) -> Result<(), AllocError> {
    out.key(name)?;
    match number {
        Some(number) => out.u64(number),
        None => out.null(),
    }
}

fn put_field(alloc: Global, field: Field, out: &mut Writer) -> Result<(), AllocError> {
    let text = format!(in alloc; "{field}")?;
    put_text("field", text.as_str(), out)
}

fn put_estimates(
    alloc: Global,
    estimates: &[Estimate],
    out: &mut Writer,
) -> Result<(), AllocError> {
    out.key("estimates")?;
    out.begin_array()?;
    for estimate in estimates {
        out.begin_object()?;
        put_number("estimate", estimate.most, out)?;
        put_field(alloc, estimate.field, out)?;
        out.end_object()?;
    }
    out.end_array()
}

/// What all expressions may charge together, up to the greatest number.
fn sum_of(estimates: &[Estimate]) -> u64 {
    let mut sum: u64 = 0;
    for estimate in estimates {
        sum = sum.saturating_add(estimate.most);
    }
    sum
}

fn estimates_of<'a>(finding: Finding<'a>) -> &'a [Estimate] {
    match finding {
        Finding::Accepted(charges) => charges.estimates.as_slice(),
        Finding::Refused(_, cause) => cause.estimates.as_slice(),
    }
}

/// What the policy's expressions may charge together, if each has an estimate.
fn sum_at(finding: Finding<'_>) -> Option<u64> {
    match finding {
        Finding::Accepted(charges) => Some(charges.sum),
        Finding::Refused(PairFault::OverBudget, cause) => {
            Some(sum_of(cause.estimates.as_slice()))
        }
        Finding::Refused(_, _) => None,
    }
}

/// Why the expression at fault may not be run.
fn refusal_at(finding: Finding<'_>) -> Option<Refusal> {
    match finding {
        Finding::Refused(PairFault::Expression(refusal), _) => Some(refusal),
        _ => None,
    }
}

/// What the expression at fault may charge, if that is its fault.
fn estimate_at(finding: Finding<'_>) -> Option<u64> {
    match refusal_at(finding) {
        Some(Refusal::OverBudget(estimate)) => Some(estimate),
        _ => None,
    }
}

fn place_at(finding: Finding<'_>) -> Option<u64> {
    match refusal_at(finding) {
        Some(refusal) => refusal.place().map(|place| place as u64),
        None => None,
    }
}

fn expression_at<'a>(finding: Finding<'a>) -> Option<&'a str> {
    match finding {
        Finding::Refused(PairFault::Expression(_), cause) => Some(text_of(cause)),
        _ => None,
    }
}

/// The members up to the field at fault.
fn put_front(alloc: Global, finding: Finding<'_>, out: &mut Writer) -> Result<(), AllocError> {
    out.key("accepted")?;
    out.boolean(matches!(finding, Finding::Accepted(_)))?;
    put_optional_number("estimate", estimate_at(finding), out)?;
    put_estimates(alloc, estimates_of(finding), out)?;
    put_optional_text("expression", expression_at(finding), out)?;
    match finding {
        Finding::Refused(fault, cause) => {
            put_text("fault", fault.name(), out)?;
            put_field(alloc, cause.field, out)
        }
        Finding::Accepted(_) => {
            put_optional_text("fault", None, out)?;
            put_optional_text("field", None, out)
        }
    }
}

fn version_of<'a>(at: Option<KindNames<'a>>) -> Option<&'a str> {
    match at {
        Some(names) => Some(names.version),
        None => None,
    }
}

/// The group and the kind, null at the kinds that are not known.
fn put_kind(at: Option<KindNames<'_>>, out: &mut Writer) -> Result<(), AllocError> {
    match at {
        Some(names) => {
            put_text("group", names.group, out)?;
            put_text("kind", names.kind, out)
        }
        None => {
            put_optional_text("group", None, out)?;
            put_optional_text("kind", None, out)
        }
    }
}

fn put_words(alloc: Global, finding: Finding<'_>, out: &mut Writer) -> Result<(), AllocError> {
    match finding {
        Finding::Refused(fault, cause) => {
            let words = words_of(alloc, fault, cause)?;
            put_text("words", words.as_str(), out)
        }
        Finding::Accepted(_) => put_optional_text("words", None, out),
    }
}

fn put_row(alloc: Global, row: &Row<'_>, out: &mut Writer) -> Result<(), AllocError> {
    out.begin_object()?;
    put_front(alloc, row.finding, out)?;
    put_kind(row.at, out)?;
    put_optional_number("place", place_at(row.finding), out)?;
    put_text("policy", row.policy, out)?;
    put_optional_number("sum", sum_at(row.finding), out)?;
    put_optional_text("version", version_of(row.at), out)?;
    put_words(alloc, row.finding, out)?;
    out.end_object()
}

fn put_rows(alloc: Global, rows: &[Row<'_>], out: &mut Writer) -> Result<(), AllocError> {
    out.key("pairs")?;
    out.begin_array()?;
    for row in rows {
        put_row(alloc, row, out)?;
    }
    out.end_array()
}

fn put_strays(strays: &[Stray], out: &mut Writer) -> Result<(), AllocError> {
    out.key("bindingsWithoutPolicy")?;
    out.begin_array()?;
    for stray in strays {
        out.begin_object()?;
        put_text("binding", stray.binding.as_str(), out)?;
        put_text("policy", stray.policy.as_str(), out)?;
        out.end_object()?;
    }
    out.end_array()
}

fn put_limits(out: &mut Writer) -> Result<(), AllocError> {
    out.key("limits")?;
    out.begin_object()?;
    put_number("expression", 10_000_000, out)?;
    put_number("policy", 100_000_000, out)?;
    out.end_object()
}

fn put_unbound(unbound: &[Text], out: &mut Writer) -> Result<(), AllocError> {
    out.key("policiesWithoutBinding")?;
    out.begin_array()?;
    for policy in unbound {
        out.string(policy.as_str())?;
    }
    out.end_array()
}

fn put_elsewhere(elsewhere: &[Elsewhere], out: &mut Writer) -> Result<(), AllocError> {
    out.key("policiesWithoutKnownKind")?;
    out.begin_array()?;
    for item in elsewhere {
        out.string(item.policy.as_str())?;
    }
    out.end_array()
}

fn put_unread(unread: &[UnreadKind], out: &mut Writer) -> Result<(), AllocError> {
    out.key("refusedSchemas")?;
    out.begin_array()?;
    for item in unread {
        out.begin_object()?;
        put_text("group", item.group.as_str(), out)?;
        put_text("kind", item.kind.as_str(), out)?;
        put_text("version", item.version.as_str(), out)?;
        out.end_object()?;
    }
    out.end_array()
}

fn put_unknown_params(unknown: &[UnknownParams], out: &mut Writer) -> Result<(), AllocError> {
    out.key("unknownParamKinds")?;
    out.begin_array()?;
    for item in unknown {
        out.begin_object()?;
        put_text("apiVersion", item.api_version.as_str(), out)?;
        put_text("kind", item.kind.as_str(), out)?;
        put_text("policy", item.policy.as_str(), out)?;
        out.end_object()?;
    }
    out.end_array()
}

/// A report as a line of compact JSON.
pub fn json_of_report(alloc: Global, report: &Report) -> Result<Vec<u8>, AllocError> {
    let rows = rows_of(alloc, report)?;
    let mut out = Writer::new(Vec::new(alloc));
    out.begin_object()?;
    out.key("accepted")?;
    out.boolean(report.status() == Status::Done)?;
    put_strays(report.strays.as_slice(), &mut out)?;
    put_limits(&mut out)?;
    put_rows(alloc, rows.as_slice(), &mut out)?;
    put_unbound(report.unbound.as_slice(), &mut out)?;
    put_elsewhere(report.elsewhere.as_slice(), &mut out)?;
    put_unread(report.unread.as_slice(), &mut out)?;
    put_unknown_params(report.unknown_params.as_slice(), &mut out)?;
    out.end_object()?;
    let mut bytes = out.into_inner();
    bytes.push(b'\n')?;
    Ok(bytes)
}
