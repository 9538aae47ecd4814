//! From findings to a verdict.

ghost use Rattle.std.specs.Prelude.{◌≡◌, ◌++◌, IfOk, OnOk};
ghost use Rattle.std.specs.List.{find};
ghost use Rattle.std.specs.Option.{option_copied};
ghost use Rattle.vap_policy_verdict.specs.DecisionAnnotations.{AreByKey, found_annotations};
ghost use Rattle.vap_policy_verdict.specs.Verdicts.{denies, decision_of, warning_in, warnings_of, verdict_of, unfit_verdict};

use crate::decision_annotations::annotations_of;
use crate::finding::{Finding, Note};
use crate::sentences::{code_of, denial_text, reason_name, warning_text};
use crate::verdict::Verdict;
use base_containers::{Items, Shared, Text, TextMap};
use std::alloc::{AllocError, Global};

/// Whether a request is allowed, and what is said if it is not.
#[derive(Drop)]
struct Decision {
    allowed: bool,
    code: u16,
    reason: Text,
    message: Text,
}

fn first_denial(findings: &[Finding]) -> Option<&Finding>
    ensures { option_copied result ≡ find denies findings.now }
{
    for finding in findings {
        if finding.actions.deny {
            return Some(finding);
        }
    }
    None
}

fn decision_of(alloc: Global, findings: &[Finding]) -> Result<Decision, AllocError>
    ensures { IfOk result (λ decision. decision ≡ decision_of findings.now) }
{
    match first_denial(findings) {
        None => Ok(Decision {
            allowed: true,
            code: 200,
            reason: Text::from_str(alloc, "")?,
            message: Text::from_str(alloc, "")?,
        }),
        Some(finding) => Ok(Decision {
            allowed: false,
            code: code_of(finding.reason),
            reason: Text::from_str(alloc, reason_name(finding.reason))?,
            message: denial_text(alloc, finding)?,
        }),
    }
}

#[tactic(auto, unfolding(crate::specs::Verdicts::warning_in))]
fn push_warning(alloc: Global, finding: &Finding, made: &mut Vec<Text>) -> Result<(), AllocError>
    ensures { OnOk result (made.new.items ≡ made.old.items ++ warning_in finding.now) }
{
    if finding.actions.warn {
        made.push(warning_text(alloc, finding)?)?;
    }
    Ok(())
}

fn warnings_of(alloc: Global, findings: &[Finding]) -> Result<Items<Text>, AllocError>
    ensures { IfOk result (λ made. made ≡ warnings_of findings.now) }
{
    let mut made = Vec::new(alloc);
    for failure in findings {
        push_warning(alloc, failure, &mut made)?;
    }
    Ok(Items::from_vec(made))
}

/// The verdict of what was found under the rules of a revision, in the order in which it was found, with what it charged.
pub fn verdict_of(
    alloc: Global,
    findings: &[Finding],
    notes: &[Note],
    revision: u64,
    charged: u64,
) -> Result<Verdict, AllocError>
    ensures exact { IfOk result (λ verdict. verdict ≡ verdict_of findings.now notes.now revision charged) }
    ensures annotations { IfOk result (λ verdict. AreByKey (found_annotations findings.now notes.now) verdict.annotations) }
{
    let decision = decision_of(alloc, findings)?;
    Ok(Verdict {
        revision,
        allowed: decision.allowed,
        code: decision.code,
        reason: decision.reason,
        message: decision.message,
        warnings: Shared::new(alloc, warnings_of(alloc, findings)?)?,
        annotations: Shared::new(alloc, annotations_of(alloc, findings, notes)?)?,
        charged,
    })
}

/// The verdict if the object is not a value of its kind's type, with this message: the request is denied, and nothing is evaluated.
pub fn unfit_verdict(alloc: Global, message: &str, revision: u64) -> Result<Verdict, AllocError>
    ensures { IfOk result (λ verdict. verdict ≡ unfit_verdict message.now revision) }
{
    Ok(Verdict {
        revision,
        allowed: false,
        code: 422,
        reason: Text::from_str(alloc, "Invalid")?,
        message: Text::from_str(alloc, message)?,
        warnings: Shared::new(alloc, Items::from_vec(Vec::new(alloc)))?,
        annotations: Shared::new(alloc, TextMap::new(alloc))?,
        charged: 0,
    })
}
