//! The failures that are kept with a decision, as JSON.

ghost use Rattle.std.specs.Prelude.{◌≡◌, ◌++◌, IfOk, OnOk};
ghost use Rattle.std.specs.List.{flat_map};
ghost use Rattle.vap_policy_verdict.specs.Failures.{index_by, head_members, word_members, where_set, action_words, action_list};
ghost use Rattle.vap_policy_verdict.specs.Failures.{action_member, action_members, failure_tokens, audited_tokens, failures_text};

use crate::finding::Finding;
use crate::members::{put_number, put_text};
use base_containers::Text;
use json::Writer;
use std::alloc::{AllocError, Global};
use vap_read::ValidationActions;

/// For how many bytes of failures there is room at once: as many as one of them may have.
const FAILURES_ROOM: usize = 256;

fn put_index(index: Option<u64>, out: &mut Writer) -> Result<(), AllocError>
    ensures ok { OnOk result (out.new.tokens ≡ out.old.tokens ++ index_by index) }
    ensures before { out.new.before ≡ out.old.before }
{
    match index {
        None => Ok(()),
        Some(number) => put_number("expressionIndex", number, out),
    }
}

#[tactic(auto, unfolding(crate::specs::Failures::head_members))]
fn put_head(finding: &Finding, out: &mut Writer) -> Result<(), AllocError>
    ensures ok { OnOk result (out.new.tokens ≡ out.old.tokens ++ head_members finding.now) }
    ensures before { out.new.before ≡ out.old.before }
{
    put_text("binding", finding.binding.as_str(), out)?;
    put_index(finding.expression_index, out)
}

#[tactic(auto, unfolding(crate::specs::Failures::word_members))]
fn put_words(finding: &Finding, out: &mut Writer) -> Result<(), AllocError>
    ensures ok { OnOk result (out.new.tokens ≡ out.old.tokens ++ word_members finding.now) }
    ensures before { out.new.before ≡ out.old.before }
{
    put_text("message", finding.message.as_str(), out)?;
    put_text("policy", finding.policy.as_str(), out)
}

fn put_where(set: bool, word: &str, out: &mut Writer) -> Result<(), AllocError>
    ensures ok { OnOk result (out.new.tokens ≡ out.old.tokens ++ where_set set word.now) }
    ensures before { out.new.before ≡ out.old.before }
{
    if set { out.string(word) } else { Ok(()) }
}

#[tactic(auto, unfolding(crate::specs::Failures::action_words))]
fn put_action_words(actions: ValidationActions, out: &mut Writer) -> Result<(), AllocError>
    ensures ok { OnOk result (out.new.tokens ≡ out.old.tokens ++ action_words actions) }
    ensures before { out.new.before ≡ out.old.before }
{
    put_where(actions.deny, "Deny", out)?;
    put_where(actions.warn, "Warn", out)?;
    put_where(actions.audit, "Audit", out)
}

#[tactic(auto, unfolding(crate::specs::Failures::action_list))]
fn put_action_list(actions: ValidationActions, out: &mut Writer) -> Result<(), AllocError>
    ensures ok { OnOk result (out.new.tokens ≡ out.old.tokens ++ action_list actions) }
    ensures before { out.new.before ≡ out.old.before }
{
    out.begin_array()?;
    put_action_words(actions, out)?;
    out.end_array()
}

fn put_action_member(
    name: &str,
    actions: ValidationActions,
    out: &mut Writer,
) -> Result<(), AllocError>
    ensures ok { OnOk result (out.new.tokens ≡ out.old.tokens ++ action_member name.now actions) }
    ensures before { out.new.before ≡ out.old.before }
{
    out.key(name)?;
    put_action_list(actions, out)
}

// The name of the member is handed on, so that no proof computes with so many bytes while it joins tokens.
#[tactic(auto, unfolding(crate::specs::Failures::action_members))]
fn put_actions(finding: &Finding, out: &mut Writer) -> Result<(), AllocError>
    ensures ok { OnOk result (out.new.tokens ≡ out.old.tokens ++ action_members finding.now) }
    ensures before { out.new.before ≡ out.old.before }
{
    put_action_member("validationActions", finding.actions, out)
}

#[tactic(auto, unfolding(crate::specs::Failures::failure_tokens))]
fn put_failure(finding: &Finding, out: &mut Writer) -> Result<(), AllocError>
    ensures ok { OnOk result (out.new.tokens ≡ out.old.tokens ++ failure_tokens finding.now) }
    ensures before { out.new.before ≡ out.old.before }
{
    out.begin_object()?;
    put_head(finding, out)?;
    put_words(finding, out)?;
    put_actions(finding, out)?;
    out.end_object()
}

#[tactic(auto, unfolding(crate::specs::Failures::audited_tokens))]
fn put_if_audited(finding: &Finding, out: &mut Writer) -> Result<(), AllocError>
    ensures ok { OnOk result (out.new.tokens ≡ out.old.tokens ++ audited_tokens finding.now) }
    ensures before { out.new.before ≡ out.old.before }
{
    if finding.actions.audit {
        put_failure(finding, out)?;
    }
    Ok(())
}

fn put_failures(findings: &[Finding], out: &mut Writer) -> Result<(), AllocError>
    ensures ok { OnOk result (out.new.tokens ≡ out.old.tokens ++ flat_map audited_tokens findings.now) }
    ensures before { out.new.before ≡ out.old.before }
{
    for finding in findings {
        put_if_audited(finding, out)?;
    }
    Ok(())
}

/// The failures whose bindings audit, as compact JSON.
pub fn failures_text(alloc: Global, findings: &[Finding]) -> Result<Text, AllocError>
    ensures { IfOk result (λ text. text ≡ failures_text findings.now) }
{
    let mut out = Writer::new(Vec::with_capacity(alloc, FAILURES_ROOM)?);
    out.begin_array()?;
    put_failures(findings, &mut out)?;
    out.end_array()?;
    Ok(Text::from_string(String::from_utf8(out.into_inner()).unwrap()))
}
