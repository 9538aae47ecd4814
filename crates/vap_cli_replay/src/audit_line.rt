//! The line that the audit has for an entry.

ghost use Rattle.std.specs.Prelude.{◌≡◌, ◌++◌, IfOk, OnOk};
ghost use Rattle.vap_cli_replay.specs.AuditLine.{allowed_member, annotation_members, audit_text, decided_members, named_members};
ghost use Rattle.vap_cli_replay.specs.AuditLine.{number_members, object_member};

use base_containers::{Keyed, Text};
use json::Writer;
use std::alloc::AllocError;
use vap_audit::Entry;
use vap_policy_verdict::{Verdict, put_number, put_text};

fn put_annotations(annotations: &[Keyed<Text>], out: &mut Writer) -> Result<(), AllocError>
    ensures ok { OnOk result (out.new.tokens ≡ out.old.tokens ++ annotation_members annotations.now) }
    ensures before { out.new.before ≡ out.old.before }
{
    for entry in annotations {
        put_text(entry.key.as_str(), entry.value.as_str(), out)?;
    }
    Ok(())
}

fn put_object(name: &str, annotations: &[Keyed<Text>], out: &mut Writer) -> Result<(), AllocError>
    ensures ok { OnOk result (out.new.tokens ≡ out.old.tokens ++ object_member name.now annotations.now) }
    ensures before { out.new.before ≡ out.old.before }
{
    out.key(name)?;
    out.begin_object()?;
    put_annotations(annotations, out)?;
    out.end_object()
}

#[tactic(auto, unfolding(crate::specs::AuditLine::allowed_member))]
fn put_allowed(allowed: bool, out: &mut Writer) -> Result<(), AllocError>
    ensures ok { OnOk result (out.new.tokens ≡ out.old.tokens ++ allowed_member allowed) }
    ensures before { out.new.before ≡ out.old.before }
{
    out.key("allowed")?;
    out.boolean(allowed)
}

#[tactic(auto, unfolding(crate::specs::AuditLine::decided_members))]
fn put_decided(verdict: &Verdict, out: &mut Writer) -> Result<(), AllocError>
    ensures ok { OnOk result (out.new.tokens ≡ out.old.tokens ++ decided_members verdict.now) }
    ensures before { out.new.before ≡ out.old.before }
{
    put_allowed(verdict.allowed, out)?;
    put_object("annotations", verdict.annotations.get().as_slice(), out)
}

#[tactic(auto, unfolding(crate::specs::AuditLine::number_members))]
fn put_numbers(call: u64, revision: u64, out: &mut Writer) -> Result<(), AllocError>
    ensures ok { OnOk result (out.new.tokens ≡ out.old.tokens ++ number_members call revision) }
    ensures before { out.new.before ≡ out.old.before }
{
    put_number("call", call, out)?;
    put_number("revision", revision, out)
}

#[tactic(auto, unfolding(crate::specs::AuditLine::named_members))]
fn put_named(entry: &Entry, out: &mut Writer) -> Result<(), AllocError>
    ensures ok { OnOk result (out.new.tokens ≡ out.old.tokens ++ named_members entry.now) }
    ensures before { out.new.before ≡ out.old.before }
{
    put_numbers(entry.call, entry.verdict.revision, out)?;
    put_text("uid", entry.request.admission().uid.as_str(), out)
}

/// A text with the line for an entry behind it, without its line feed: compact JSON, the members by the bytes of their keys. If memory is
/// refused, the text is let go.
pub(crate) fn with_audit_text(entry: &Entry, text: Vec<u8>) -> Result<Vec<u8>, AllocError>
    ensures { IfOk result (λ all. all.items ≡ text.items ++ audit_text entry.now) }
{
    let mut out = Writer::new(text);
    out.begin_object()?;
    put_decided(&entry.verdict, &mut out)?;
    put_named(entry, &mut out)?;
    out.end_object()?;
    Ok(out.into_inner())
}
