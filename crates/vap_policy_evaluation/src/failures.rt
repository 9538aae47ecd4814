//! Failures.

ghost use Rattle.std.specs.Prelude.{◌≡◌, ◌++◌, [], ◌∷◌, OnOk};
ghost use Rattle.vap_policy_evaluation.specs.Validations.{failure, counted};

use crate::found::Failure;
use base_containers::Text;
use std::alloc::AllocError;
use vap_read::{FailurePolicy, Reason};

pub fn push_failure(
    index: Option<u64>,
    message: Text,
    reason: Reason,
    failures: &mut Vec<Failure>,
) -> Result<(), AllocError>
    ensures { OnOk result (failures.new.items ≡ failures.old.items ++ failure index message reason ∷ []) }
{
    failures.push(Failure {
        expression_index: index,
        message,
        reason,
    })?;
    Ok(())
}

/// Pushes a failure that counts under the failure policy Fail alone.
pub fn push_error(
    policy: FailurePolicy,
    index: Option<u64>,
    message: Text,
    failures: &mut Vec<Failure>,
) -> Result<(), AllocError>
    ensures { OnOk result (failures.new.items ≡ failures.old.items ++ counted policy index message) }
{
    match policy {
        FailurePolicy::Fail => push_failure(index, message, Reason::Invalid, failures),
        FailurePolicy::Ignore => Ok(()),
    }
}
