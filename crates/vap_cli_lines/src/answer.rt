//! Answers to reviews.

ghost use Rattle.std.specs.Prelude.{◌≡◌, ◌++◌, ◌∷◌, [], IfOk};
ghost use Rattle.vap_policy_verdict.specs.AnswerText.{answer_text};

use std::alloc::{AllocError, Global};
use vap_policy_verdict::{Verdict, with_answer};

/// Room for most lines. Each is made in a room of its own, since a writer of JSON clears up to 16 KiB of the room behind its text.
const LINE_ROOM: usize = 1_024;

/// The verdict on a review, and the line that answers it, with its line feed.
#[derive(Drop)]
pub struct ReviewAnswer {
    pub verdict: Verdict,
    pub line: Vec<u8>,
}

/// The line that answers the request of this uid, with its line feed: compact JSON.
pub fn answer_line(alloc: Global, uid: &str, verdict: &Verdict) -> Result<Vec<u8>, AllocError>
    ensures { IfOk result (λ line. line.items ≡ answer_text uid.now verdict.now ++ 10 ∷ []) }
{
    let room = Vec::with_capacity(alloc, LINE_ROOM)?;
    let mut line = with_answer(uid, verdict, room)?;
    line.push(b'\n')?;
    Ok(line)
}
