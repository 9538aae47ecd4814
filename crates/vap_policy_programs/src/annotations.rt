//! Annotations, compiled.

ghost use Rattle.std.specs.Prelude.{◌≡◌, ℕ, IfOk, IsErrOf};
ghost use Rattle.cel_expression.specs.Faulty.{IsUnverified};
ghost use Rattle.base_containers.specs.declared.failed.Failed.TheVariants.{Fault};
ghost use Rattle.cel_expression.specs.declared.refusal.CompileFault.TheVariants.{Unverified};
ghost use Rattle.vap_policy_programs.specs.Expressions.{of_annotations, IsOneUnverified};
ghost use Rattle.vap_policy_programs.specs.Pairs.{each, annotation_of};
ghost use Rattle.vap_policy_programs.specs.Scopes.{source};

use crate::names::NameTypes;
use crate::pair_fault::PairFault;
use crate::programs::Annotation;
use crate::wanted::{Choice, Wanted, compile_as};
use base_containers::Items;
use cel_expression::CompileError;
use std::alloc::Global;
use vap_read::AuditAnnotation;

#[tactic(auto, unfolding(crate::specs::Pairs::annotation_of))]
fn compile_annotation(
    alloc: Global,
    choice: &Choice,
    names: &NameTypes,
    annotation: &AuditAnnotation,
) -> Result<Result<Annotation, PairFault>, CompileError>
    ensures compiled { IfOk result (λ a. a ≡ annotation_of choice.now names.now annotation.now) }
    ensures unverified { (at : ℕ) → IsErrOf result (Fault (Unverified at))
        → IsUnverified (source choice.now names.now annotation.now.value_expression) at }
{
    let key = annotation.key.copy()?;
    match compile_as(
        alloc,
        choice,
        names,
        &annotation.value_expression,
        Wanted::Note,
    )? {
        Ok(value) => Ok(Ok(Annotation { key, value })),
        Err(fault) => Ok(Err(fault)),
    }
}

pub fn compile_annotations(
    alloc: Global,
    choice: &Choice,
    names: &NameTypes,
    annotations: &[AuditAnnotation],
) -> Result<Result<Items<Annotation>, PairFault>, CompileError>
    ensures compiled { IfOk result (λ ns. ns ≡ each (annotation_of choice.now names.now) annotations.now) }
    ensures unverified { (at : ℕ) → IsErrOf result (Fault (Unverified at))
        → IsOneUnverified at (of_annotations choice.now names.now annotations.now) }
{
    let mut made = Vec::new(alloc);
    for annotation in annotations {
        match compile_annotation(alloc, choice, names, annotation)? {
            Ok(compiled) => made.push(compiled)?,
            Err(fault) => return Ok(Err(fault)),
        }
    }
    Ok(Ok(Items::from_vec(made)))
}
