//! The words of a verdict.

ghost use Rattle.std.specs.Prelude.{◌≡◌, ◌++◌, codes, IfOk};
ghost use Rattle.vap_policy_verdict.specs.Sentences.{code_of, reason_name, denial, warning};

use crate::finding::Finding;
use base_containers::Text;
use std::alloc::{AllocError, Global};
use vap_read::Reason;

/// Room for most sentences.
const SENTENCE_ROOM: usize = 256;

/// The status code of a reason.
pub fn code_of(reason: Reason) -> u16
    ensures { result ≡ code_of reason }
{
    match reason {
        Reason::Unauthorized => 401,
        Reason::Forbidden => 403,
        Reason::Invalid => 422,
        Reason::RequestEntityTooLarge => 413,
    }
}

/// The word of a reason.
pub fn reason_name(reason: Reason) -> &'static str
    ensures { result.now ≡ reason_name reason }
{
    match reason {
        Reason::Unauthorized => "Unauthorized",
        Reason::Forbidden => "Forbidden",
        Reason::Invalid => "Invalid",
        Reason::RequestEntityTooLarge => "RequestEntityTooLarge",
    }
}

/// A sentence about a failure: what is said before its policy and behind its binding, and its message. (It is pushed piece by piece and
/// not formatted, since a review may have many of them.)
fn sentence(
    alloc: Global,
    before: &str,
    behind: &str,
    finding: &Finding,
) -> Result<Text, AllocError>
    ensures { IfOk result (λ text. text ≡ before.now ++ (finding.now.policy ++ (codes "' with binding '"
        ++ (finding.now.binding ++ (behind.now ++ finding.now.message))))) }
{
    let mut text = String::with_capacity(alloc, SENTENCE_ROOM)?;
    text.push_str(before)?;
    text.push_str(finding.policy.as_str())?;
    text.push_str("' with binding '")?;
    text.push_str(finding.binding.as_str())?;
    text.push_str(behind)?;
    text.push_str(finding.message.as_str())?;
    Ok(Text::from_string(text))
}

/// What is said if a failure denies the request.
pub fn denial_text(alloc: Global, finding: &Finding) -> Result<Text, AllocError>
    ensures { IfOk result (λ text. text ≡ denial finding.now.policy finding.now.binding finding.now.message) }
{
    sentence(
        alloc,
        "ValidatingAdmissionPolicy '",
        "' denied request: ",
        finding,
    )
}

/// What is said if a failure is only warned of.
pub fn warning_text(alloc: Global, finding: &Finding) -> Result<Text, AllocError>
    ensures { IfOk result (λ text. text ≡ warning finding.now.policy finding.now.binding finding.now.message) }
{
    sentence(
        alloc,
        "Validation failed for ValidatingAdmissionPolicy '",
        "': ",
        finding,
    )
}
