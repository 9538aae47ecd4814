//! The line that answers a request.

ghost use Rattle.std.specs.Prelude.{◌≡◌, ◌++◌, IfOk, OnOk, map, string_bytes};
ghost use Rattle.std.specs.List.{flat_map};
ghost use Rattle.json.specs.Token.{string};
ghost use Rattle.vap_policy_verdict.specs.AnswerText.{entry_tokens, annotation_object, annotation_member, annotation_members};
ghost use Rattle.vap_policy_verdict.specs.AnswerText.{allowed_member, front_members, number_members, word_members, decision_members};
ghost use Rattle.vap_policy_verdict.specs.AnswerText.{name_members, warning_members, answer_tokens, answer_text};

use crate::members::{put_number, put_text};
use crate::verdict::Verdict;
use base_containers::{Keyed, Text};
use json::Writer;
use std::alloc::{AllocError, Global};

fn put_texts(texts: &[Text], out: &mut Writer) -> Result<(), AllocError>
    ensures ok { OnOk result (out.new.tokens ≡ out.old.tokens ++ map string texts.now) }
    ensures before { out.new.before ≡ out.old.before }
{
    for text in texts {
        out.string(text.as_str())?;
    }
    Ok(())
}

#[tactic(auto, unfolding(crate::specs::AnswerText::entry_tokens))]
fn put_entries(entries: &[Keyed<Text>], out: &mut Writer) -> Result<(), AllocError>
    ensures ok { OnOk result (out.new.tokens ≡ out.old.tokens ++ flat_map entry_tokens entries.now) }
    ensures before { out.new.before ≡ out.old.before }
{
    for entry in entries {
        put_text(entry.key.as_str(), entry.value.as_str(), out)?;
    }
    Ok(())
}

#[tactic(auto, unfolding(crate::specs::AnswerText::annotation_object))]
fn put_object(entries: &[Keyed<Text>], out: &mut Writer) -> Result<(), AllocError>
    ensures ok { OnOk result (out.new.tokens ≡ out.old.tokens ++ annotation_object entries.now) }
    ensures before { out.new.before ≡ out.old.before }
{
    out.begin_object()?;
    put_entries(entries, out)?;
    out.end_object()
}

fn put_annotation_member(
    name: &str,
    entries: &[Keyed<Text>],
    out: &mut Writer,
) -> Result<(), AllocError>
    ensures ok { OnOk result (out.new.tokens ≡ out.old.tokens ++ annotation_member name.now entries.now) }
    ensures before { out.new.before ≡ out.old.before }
{
    out.key(name)?;
    put_object(entries, out)
}

// The name of the member is handed on, so that no proof computes with so many bytes while it joins tokens.
#[tactic(auto, unfolding(crate::specs::AnswerText::annotation_members))]
fn put_annotations(entries: &[Keyed<Text>], out: &mut Writer) -> Result<(), AllocError>
    ensures ok { OnOk result (out.new.tokens ≡ out.old.tokens ++ annotation_members entries.now) }
    ensures before { out.new.before ≡ out.old.before }
{
    put_annotation_member("auditAnnotations", entries, out)
}

fn put_allowed(allowed: bool, out: &mut Writer) -> Result<(), AllocError>
    ensures ok { OnOk result (out.new.tokens ≡ out.old.tokens ++ allowed_member allowed) }
    ensures before { out.new.before ≡ out.old.before }
{
    out.key("allowed")?;
    out.boolean(allowed)
}

#[tactic(auto, unfolding(crate::specs::AnswerText::front_members))]
fn put_front(verdict: &Verdict, out: &mut Writer) -> Result<(), AllocError>
    ensures ok { OnOk result (out.new.tokens ≡ out.old.tokens ++ front_members verdict.now) }
    ensures before { out.new.before ≡ out.old.before }
{
    put_allowed(verdict.allowed, out)?;
    put_annotations(verdict.annotations.get().as_slice(), out)
}

#[tactic(auto, unfolding(crate::specs::AnswerText::number_members))]
fn put_numbers(verdict: &Verdict, out: &mut Writer) -> Result<(), AllocError>
    ensures ok { OnOk result (out.new.tokens ≡ out.old.tokens ++ number_members verdict.now) }
    ensures before { out.new.before ≡ out.old.before }
{
    put_number("charged", verdict.charged, out)?;
    put_number("code", u64::from(verdict.code), out)
}

#[tactic(auto, unfolding(crate::specs::AnswerText::word_members))]
fn put_words(verdict: &Verdict, out: &mut Writer) -> Result<(), AllocError>
    ensures ok { OnOk result (out.new.tokens ≡ out.old.tokens ++ word_members verdict.now) }
    ensures before { out.new.before ≡ out.old.before }
{
    put_text("message", verdict.message.as_str(), out)?;
    put_text("reason", verdict.reason.as_str(), out)
}

#[tactic(auto, unfolding(crate::specs::AnswerText::decision_members))]
fn put_decision(verdict: &Verdict, out: &mut Writer) -> Result<(), AllocError>
    ensures ok { OnOk result (out.new.tokens ≡ out.old.tokens ++ decision_members verdict.now) }
    ensures before { out.new.before ≡ out.old.before }
{
    put_numbers(verdict, out)?;
    put_words(verdict, out)
}

#[tactic(auto, unfolding(crate::specs::AnswerText::name_members))]
fn put_names(uid: &str, verdict: &Verdict, out: &mut Writer) -> Result<(), AllocError>
    ensures ok { OnOk result (out.new.tokens ≡ out.old.tokens ++ name_members uid.now verdict.now) }
    ensures before { out.new.before ≡ out.old.before }
{
    put_number("revision", verdict.revision, out)?;
    put_text("uid", uid, out)
}

#[tactic(auto, unfolding(crate::specs::AnswerText::warning_members))]
fn put_warnings(verdict: &Verdict, out: &mut Writer) -> Result<(), AllocError>
    ensures ok { OnOk result (out.new.tokens ≡ out.old.tokens ++ warning_members verdict.now) }
    ensures before { out.new.before ≡ out.old.before }
{
    out.key("warnings")?;
    out.begin_array()?;
    put_texts(verdict.warnings.get().as_slice(), out)?;
    out.end_array()
}

fn put_answer(uid: &str, verdict: &Verdict, out: &mut Writer) -> Result<(), AllocError>
    ensures ok { OnOk result (out.new.tokens ≡ out.old.tokens ++ answer_tokens uid.now verdict.now) }
    ensures before { out.new.before ≡ out.old.before }
{
    out.begin_object()?;
    put_front(verdict, out)?;
    put_decision(verdict, out)?;
    put_names(uid, verdict, out)?;
    put_warnings(verdict, out)?;
    out.end_object()
}

/// The answer to the request of this uid, as compact JSON.
pub fn answer_text(alloc: Global, uid: &str, verdict: &Verdict) -> Result<String, AllocError>
    ensures { IfOk result (λ text. string_bytes text ≡ answer_text uid.now verdict.now) }
{
    let mut out = Writer::new(Vec::new(alloc));
    put_answer(uid, verdict, &mut out)?;
    Ok(String::from_utf8(out.into_inner()).unwrap())
}

/// A text with the answer to the request of this uid behind it, as compact JSON. If memory is refused, the text is let go.
pub fn with_answer(uid: &str, verdict: &Verdict, text: Vec<u8>) -> Result<Vec<u8>, AllocError>
    ensures { IfOk result (λ all. all.items ≡ text.items ++ answer_text uid.now verdict.now) }
{
    let mut out = Writer::new(text);
    put_answer(uid, verdict, &mut out)?;
    Ok(out.into_inner())
}
