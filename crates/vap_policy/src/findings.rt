//! What evaluations find.

ghost use Rattle.std.specs.Prelude.{◌≡◌, ◌++◌, List, ◌∷◌, [], IfOk, OnOk, map};
ghost use Rattle.vap_policy.specs.Evaluations.{Failed, finding_of, found_by, joined, note_of};
ghost use Rattle.vap_policy.specs.Judging.{verdict_by};
ghost use Rattle.vap_policy.specs.Shown.{findings_of, rule_of};

use base_containers::Text;
use std::alloc::{AllocError, Global};
use vap_policy_evaluation::{Failure, Note as FoundNote};
use vap_policy_verdict::{Finding, Note, Verdict, verdict_of};
use vap_read::{FailurePolicy, Reason, ValidationActions};

/// The names of a policy and of a binding, and what becomes of a failure under them.
#[derive(Clone, Copy)]
pub struct Rule<'a> {
    pub policy: &'a Text,
    pub binding: &'a Text,
    pub actions: ValidationActions,
    pub failure_policy: FailurePolicy,
}

fn finding_of(rule: &Rule<'_>, failure: Failure) -> Result<Finding, AllocError>
    ensures { IfOk result (λ finding. finding ≡ finding_of (rule_of rule.now) failure) }
{
    let policy = rule.policy.copy()?;
    let binding = rule.binding.copy()?;
    Ok(Finding {
        policy,
        binding,
        actions: rule.actions,
        reason: failure.reason,
        message: failure.message,
        expression_index: failure.expression_index,
    })
}

fn note_of(rule: &Rule<'_>, note: FoundNote) -> Result<Note, AllocError>
    ensures { IfOk result (λ made. made ≡ note_of (rule_of rule.now) note) }
{
    let policy = rule.policy.copy()?;
    Ok(Note {
        policy,
        key: note.key,
        value: note.value,
    })
}

/// Failures and notes in the order in which they are found, and the charge.
#[derive(Drop)]
pub struct Findings {
    pub failures: Vec<Finding>,
    pub notes: Vec<Note>,
    pub charged: u64,
}

impl Findings {
    pub fn new(alloc: Global) -> Findings
        ensures none { findings_of result ≡ found_by [] }
        ensures charged { result.charged ≡ 0 }
    {
        Findings {
            failures: Vec::new(alloc),
            notes: Vec::new(alloc),
            charged: 0,
        }
    }

    /// Adds failures under their rule.
    pub fn add_failures(&mut self, rule: &Rule<'_>, found: Vec<Failure>) -> Result<(), AllocError>
        ensures failures { OnOk result (self.new.failures.items
            ≡ self.old.failures.items ++ map (finding_of (rule_of rule.now)) found.items) }
        ensures notes { OnOk result (self.new.notes.items ≡ self.old.notes.items) }
        ensures charged { self.new.charged ≡ self.old.charged }
    {
        for failure in found {
            self.failures.push(finding_of(rule, failure)?)?;
        }
        Ok(())
    }

    /// Adds notes under their rule.
    pub fn add_notes(&mut self, rule: &Rule<'_>, found: Vec<FoundNote>) -> Result<(), AllocError>
        ensures notes { OnOk result (self.new.notes.items ≡ self.old.notes.items ++ map (note_of (rule_of rule.now)) found.items) }
        ensures failures { OnOk result (self.new.failures.items ≡ self.old.failures.items) }
        ensures charged { self.new.charged ≡ self.old.charged }
    {
        for note in found {
            self.notes.push(note_of(rule, note)?)?;
        }
        Ok(())
    }

    /// Adds a failure with a message, if the failure policy is Fail.
    pub fn fail(&mut self, alloc: Global, rule: &Rule<'_>, message: &str) -> Result<(), AllocError>
        ensures found { OnOk result (findings_of self.new
            ≡ joined (findings_of self.old) (found_by (Failed (rule_of rule.now) message.now ∷ []))) }
        ensures charged { OnOk result (self.new.charged ≡ self.old.charged) }
    {
        match rule.failure_policy {
            FailurePolicy::Fail => {
                let failure = Failure {
                    expression_index: None,
                    message: Text::from_str(alloc, message)?,
                    reason: Reason::Invalid,
                };
                self.failures.push(finding_of(rule, failure)?)?;
                Ok(())
            }
            FailurePolicy::Ignore => Ok(()),
        }
    }

    /// The verdict of what is found, at a revision.
    pub fn verdict(&self, alloc: Global, revision: u64) -> Result<Verdict, AllocError>
        ensures { IfOk result (λ verdict. verdict ≡ verdict_by revision (findings_of self.now)) }
    {
        let (failures, notes) = (self.failures.as_slice(), self.notes.as_slice());
        verdict_of(alloc, failures, notes, revision, self.charged)
    }
}
