//! A report for people.

use crate::cause::Cause;
use crate::charges::{Charges, Estimate};
use crate::outcome::Elsewhere;
use crate::report::Report;
use crate::rows::{Finding, KindNames, Row, rows_of};
use crate::unread::UnreadKind;
use crate::unused::{Stray, UnknownParams};
use crate::words::{text_of, words_of};
use base_containers::Text;
use cel_expression::Refusal as TextRefusal;
use std::alloc::{AllocError, Global};
use vap_cli::{Refusal, refusal_note};
use vap_policy_programs::PairFault;

/// A name. What a terminal would obey is written as a question mark.
fn put_name(out: &mut String, name: &str) -> Result<(), AllocError> {
    for character in name.chars() {
        let is_plain = character >= ' ' && character != '\u{7f}';
        out.push(if is_plain { character } else { '?' })?;
    }
    Ok(())
}

fn put_kind(out: &mut String, group: &str, version: &str, kind: &str) -> Result<(), AllocError> {
    if !group.is_empty() {
        put_name(out, group)?;
        out.push_str("/")?;
    }
    put_name(out, version)?;
    out.push_str(" ")?;
    put_name(out, kind)
}

fn put_place(out: &mut String, at: Option<KindNames<'_>>) -> Result<(), AllocError> {
    match at {
        Some(names) => put_kind(out, names.group, names.version, names.kind),
        None => out.push_str("kinds that are not known"),
    }
}

fn put_estimates(out: &mut String, estimates: &[Estimate]) -> Result<(), AllocError> {
    for estimate in estimates {
        let (field, most) = (estimate.field, estimate.most);
        write!(out, "    {field}: {most} of 10000000\n")?;
    }
    Ok(())
}

fn put_charges(out: &mut String, charges: &Charges) -> Result<(), AllocError> {
    let sum = charges.sum;
    write!(out, ": accepted, {sum} of 100000000\n")?;
    put_estimates(out, charges.estimates.as_slice())
}

/// All lines except the last, each further in.
fn put_front(out: &mut String, note: &str) -> Result<(), AllocError> {
    let mut before: Option<&str> = None;
    for line in note.lines() {
        if let Some(shown) = before {
            out.push_str("    ")?;
            out.push_str(shown)?;
            out.push_str("\n")?;
        }
        before = Some(line);
    }
    Ok(())
}

/// What is wrong with an expression: its field, its line with a caret under the place, and what that means.
fn put_expression(
    alloc: Global,
    out: &mut String,
    refusal: TextRefusal,
    cause: &Cause,
) -> Result<(), AllocError> {
    let why = Refusal::Text(refusal);
    let field = cause.field;
    write!(out, ": refused: {why}\n    {field}\n")?;
    let note = refusal_note(alloc, text_of(cause), &why)?;
    put_front(out, note.as_str())
}

fn put_cause(
    alloc: Global,
    out: &mut String,
    fault: PairFault,
    cause: &Cause,
) -> Result<(), AllocError> {
    match fault {
        PairFault::Expression(refusal) => put_expression(alloc, out, refusal, cause)?,
        PairFault::UnknownParamKind | PairFault::OverBudget => {
            let (name, field) = (fault.name(), cause.field);
            write!(out, ": refused: {name}\n    {field}\n")?;
        }
    }
    let words = words_of(alloc, fault, cause)?;
    write!(out, "    {}\n", words.as_str())?;
    put_estimates(out, cause.estimates.as_slice())
}

fn put_row(alloc: Global, out: &mut String, row: &Row<'_>) -> Result<(), AllocError> {
    out.push_str("  ")?;
    put_place(out, row.at)?;
    match row.finding {
        Finding::Accepted(charges) => put_charges(out, charges),
        Finding::Refused(fault, cause) => put_cause(alloc, out, fault, cause),
    }
}

fn is_of(last: Option<&str>, policy: &str) -> bool {
    match last {
        Some(name) => name == policy,
        None => false,
    }
}

/// Each policy at its kinds, its name before them.
fn put_rows(alloc: Global, out: &mut String, rows: &[Row<'_>]) -> Result<(), AllocError> {
    let mut last: Option<&str> = None;
    for row in rows {
        if !is_of(last, row.policy) {
            out.push_str("policy ")?;
            put_name(out, row.policy)?;
            out.push_str("\n")?;
        }
        last = Some(row.policy);
        put_row(alloc, out, row)?;
    }
    Ok(())
}

fn put_line(out: &mut String, name: &Text, behind: &str) -> Result<(), AllocError> {
    out.push_str("policy ")?;
    put_name(out, name.as_str())?;
    out.push_str(behind)
}

fn put_unbound(out: &mut String, unbound: &[Text]) -> Result<(), AllocError> {
    for policy in unbound {
        put_line(out, policy, ": no binding names it\n")?;
    }
    Ok(())
}

fn put_elsewhere(out: &mut String, elsewhere: &[Elsewhere]) -> Result<(), AllocError> {
    for item in elsewhere {
        put_line(
            out,
            &item.policy,
            ": no kind that it names is known, so that `object` is only compared with null\n",
        )?;
    }
    Ok(())
}

fn put_unknown_params(out: &mut String, unknown: &[UnknownParams]) -> Result<(), AllocError> {
    for item in unknown {
        put_line(out, &item.policy, ": the kind of its params is not known: ")?;
        put_kind(out, "", item.api_version.as_str(), item.kind.as_str())?;
        out.push_str("\n")?;
    }
    Ok(())
}

fn put_strays(out: &mut String, strays: &[Stray]) -> Result<(), AllocError> {
    for stray in strays {
        out.push_str("binding ")?;
        put_name(out, stray.binding.as_str())?;
        out.push_str(": there is no policy ")?;
        put_name(out, stray.policy.as_str())?;
        out.push_str("\n")?;
    }
    Ok(())
}

fn put_unread(out: &mut String, unread: &[UnreadKind]) -> Result<(), AllocError> {
    for item in unread {
        out.push_str("kind ")?;
        put_kind(
            out,
            item.group.as_str(),
            item.version.as_str(),
            item.kind.as_str(),
        )?;
        out.push_str(": its schema is refused, so that the kind is not known\n")?;
    }
    Ok(())
}

/// How many rows report that a policy is refused.
fn refused_among(rows: &[Row<'_>]) -> usize {
    rows.iter()
        .filter(|row| matches!(row.finding, Finding::Refused(_, _)))
        .count()
}

fn put_counts(out: &mut String, rows: &[Row<'_>]) -> Result<(), AllocError> {
    let refused = refused_among(rows);
    let accepted = rows.len().saturating_sub(refused);
    write!(out, "{accepted} accepted, {refused} refused\n")
}

/// A report for people: each policy at each kind with what it may charge or what is wrong with it, then what no kind knows, and how
/// many are accepted and refused.
pub fn text_of_report(alloc: Global, report: &Report) -> Result<String, AllocError> {
    let mut out = String::new(alloc);
    let rows = rows_of(alloc, report)?;
    put_rows(alloc, &mut out, rows.as_slice())?;
    put_strays(&mut out, report.strays.as_slice())?;
    put_unbound(&mut out, report.unbound.as_slice())?;
    put_elsewhere(&mut out, report.elsewhere.as_slice())?;
    put_unknown_params(&mut out, report.unknown_params.as_slice())?;
    put_unread(&mut out, report.unread.as_slice())?;
    put_counts(&mut out, rows.as_slice())?;
    Ok(out)
}
