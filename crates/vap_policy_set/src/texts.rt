//! The literal texts that `matches` is given in the expressions of policies.

ghost use Rattle.std.specs.Prelude.{◌≡◌, ◌++◌, IfOk, OnOk};
ghost use Rattle.std.specs.List.{flat_map};
ghost use Rattle.vap_policy_set.specs.Patterns.{of_annotation, of_message, of_named, of_policy, of_validation};

use base_containers::{Items, Text};
use cel_expression::gather_texts;
use std::alloc::{AllocError, Global};
use vap_read::{AuditAnnotation, NamedExpression, PolicySpec, Validation};

fn gather_named(
    alloc: Global,
    expressions: &[NamedExpression],
    texts: &mut Vec<Text>,
) -> Result<(), AllocError>
    ensures { OnOk result (texts.new.items ≡ texts.old.items ++ flat_map of_named expressions.now) }
{
    for named in expressions {
        gather_texts(alloc, named.expression.as_str(), texts)?;
    }
    Ok(())
}

fn gather_message(
    alloc: Global,
    message: &Option<Text>,
    texts: &mut Vec<Text>,
) -> Result<(), AllocError>
    ensures { OnOk result (texts.new.items ≡ texts.old.items ++ of_message message.now) }
{
    match message {
        Some(text) => gather_texts(alloc, text.as_str(), texts),
        None => Ok(()),
    }
}

fn gather_validation(
    alloc: Global,
    validation: &Validation,
    texts: &mut Vec<Text>,
) -> Result<(), AllocError>
    ensures { OnOk result (texts.new.items ≡ texts.old.items ++ of_validation validation.now) }
{
    gather_texts(alloc, validation.expression.as_str(), texts)?;
    gather_message(alloc, &validation.message_expression, texts)
}

fn gather_validations(
    alloc: Global,
    validations: &[Validation],
    texts: &mut Vec<Text>,
) -> Result<(), AllocError>
    ensures { OnOk result (texts.new.items ≡ texts.old.items ++ flat_map of_validation validations.now) }
{
    for validation in validations {
        gather_validation(alloc, validation, texts)?;
    }
    Ok(())
}

fn gather_annotations(
    alloc: Global,
    annotations: &[AuditAnnotation],
    texts: &mut Vec<Text>,
) -> Result<(), AllocError>
    ensures { OnOk result (texts.new.items ≡ texts.old.items ++ flat_map of_annotation annotations.now) }
{
    for annotation in annotations {
        gather_texts(alloc, annotation.value_expression.as_str(), texts)?;
    }
    Ok(())
}

/// The texts of a policy, in the order of its expressions.
pub fn texts_of(alloc: Global, policy: &PolicySpec) -> Result<Items<Text>, AllocError>
    ensures { IfOk result (λ texts. texts ≡ of_policy policy.now) }
{
    let mut texts = Vec::new(alloc);
    gather_named(alloc, policy.match_conditions.as_slice(), &mut texts)?;
    gather_named(alloc, policy.variables.as_slice(), &mut texts)?;
    gather_validations(alloc, policy.validations.as_slice(), &mut texts)?;
    gather_annotations(alloc, policy.audit_annotations.as_slice(), &mut texts)?;
    Ok(Items::from_vec(texts))
}
