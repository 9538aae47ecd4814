//! Why a document is no value of a type.

ghost use Rattle.std.specs.Prelude.{◌≡◌, length};
ghost use Rattle.base_containers.specs.Failures.{Answers, IfFault};
ghost use Rattle.vap_schema.specs.Paths.{path_text};
ghost use Rattle.vap_schema.specs.Seen.{misfit, fault, within};

use crate::fit_fault::{FitError, FitFault, FitFaultKind};
use crate::path::{Path, written};
use base_containers::Part;
use std::alloc::Global;

/// Refuses a length past a limit.
pub(crate) fn check_limit(
    alloc: Global,
    max: u32,
    length: usize,
    path: &Path<'_>,
) -> Result<(), FitError>
    ensures { Answers (within max length (path_text path.now)) result }
{
    if length > max as usize {
        return Err(refusal(alloc, FitFaultKind::OverLimit, path));
    }
    Ok(())
}

/// Why a document of a kind that the type does not have is refused.
#[cold]
pub(crate) fn misfit(alloc: Global, document: &Part<'_, '_>, path: &Path<'_>) -> FitError
    ensures { IfFault (λ f. misfit (path_text path.now) document.now ≡ f) result }
{
    let kind = if document.is_null() {
        FitFaultKind::NullHere
    } else {
        FitFaultKind::WrongKind
    };
    refusal(alloc, kind, path)
}

/// A fault of this kind at this path.
#[cold]
pub(crate) fn refusal(alloc: Global, kind: FitFaultKind, path: &Path<'_>) -> FitError
    ensures { IfFault (λ f. fault kind (path_text path.now) ≡ f) result }
{
    match written(alloc, path) {
        Ok(path) => FitError::Fault(FitFault { path, kind }),
        Err(_) => FitError::OutOfMemory,
    }
}
