//! Verdicts.

ghost use Rattle.std.specs.Prelude.{◌≡◌, IfOk};

use base_containers::{Items, Shared, Text, TextMap};
use std::alloc::AllocError;

/// The answer to a request, by the rules of one revision. A request that is allowed has code 200, no reason and no message.
pub struct Verdict {
    pub revision: u64,
    pub allowed: bool,
    pub code: u16,
    pub reason: Text,
    pub message: Text,
    /// The warnings, in the order of the failures.
    pub warnings: Shared<Items<Text>>,
    /// What is kept with the decision, by its keys.
    pub annotations: Shared<TextMap<Text>>,
    /// What all evaluations charged together.
    pub charged: u64,
}

impl Drop for Verdict {
    fn drop(self) {
        let Verdict {
            revision: _revision,
            allowed: _allowed,
            code: _code,
            reason: _reason,
            message: _message,
            warnings: _warnings,
            annotations: _annotations,
            charged: _charged,
        } = self;
    }
}

impl Verdict {
    /// An equal verdict: its warnings and annotations have one more owner.
    pub fn copy(&self) -> Result<Verdict, AllocError>
        ensures { IfOk result (λ verdict. verdict ≡ self.now) }
    {
        Ok(Verdict {
            revision: self.revision,
            allowed: self.allowed,
            code: self.code,
            reason: self.reason.copy()?,
            message: self.message.copy()?,
            warnings: self.warnings.share()?,
            annotations: self.annotations.share()?,
            charged: self.charged,
        })
    }
}
