//! Expressions of a type that is wanted.

ghost use Rattle.std.specs.Prelude.{◌≡◌, ℕ, Some, Ok, Err, IfOk, IsErrOf};
ghost use Rattle.cel_value.specs.declared.cel_type.CelType.{out-CelType};
ghost use Rattle.vap_policy_programs.specs.Scopes.{source};
ghost use Rattle.cel_expression.specs.Expressions.{root_type, type_at, typed_of};
ghost use Rattle.cel_expression.specs.Faulty.{IsUnverified};
ghost use Rattle.base_containers.specs.declared.failed.Failed.TheVariants.{Fault};
ghost use Rattle.cel_expression.specs.declared.refusal.CompileFault.TheVariants.{Unverified};
ghost use Rattle.vap_policy_programs.specs.Wanted.{is_text, is_truth_level, is_note_level, is_wanted, wrong_type, as_wanted, compiled_as};

use crate::names::NameTypes;
use crate::pair_fault::PairFault;
use base_containers::{Items, Shared, Text};
use cel_check::TypeFault;
use cel_expression::{CompileError, Compiled, Refusal, compile_text, root_type};
use cel_operators::TypeRule;
use cel_value::CelType;
use std::alloc::{AllocError, Global};

/// The texts that are taken as no patterns.
pub type Choice = Shared<Items<Text>>;

/// The type that an expression must have; no other is accepted in its place.
#[derive(Clone, Copy, Debug, PartialEq, Eq)]
pub enum Wanted {
    Whatever,
    /// That of truth values.
    Truth,
    /// Texts.
    Message,
    /// Texts, texts or null, or null.
    Note,
}

fn is_truth(cel_type: &CelType) -> bool
    ensures { result ≡ is_truth_level (out-CelType cel_type.now) }
{
    match cel_type {
        CelType::Bool => true,
        _ => false,
    }
}

fn is_text(cel_type: &CelType) -> bool
    ensures { result ≡ is_text cel_type.now }
{
    match cel_type {
        CelType::Text { .. } => true,
        _ => false,
    }
}

fn is_note(cel_type: &CelType) -> bool
    ensures { result ≡ is_note_level (out-CelType cel_type.now) }
{
    match cel_type {
        CelType::Null => true,
        CelType::Text { .. } => true,
        CelType::Nullable(inner) => is_text(inner.get()),
        _ => false,
    }
}

fn is_wanted(wanted: Wanted, cel_type: &CelType) -> bool
    ensures { result ≡ is_wanted wanted cel_type.now }
{
    match wanted {
        Wanted::Whatever => true,
        Wanted::Truth => is_truth(cel_type),
        Wanted::Message => is_text(cel_type),
        Wanted::Note => is_note(cel_type),
    }
}

fn wrong_type() -> PairFault
    ensures { result ≡ PairFault.Expression wrong_type }
{
    PairFault::Expression(Refusal::Type(TypeFault {
        rule: TypeRule::NoOverload,
        place: 0,
    }))
}

/// Why an expression that is refused may not be run: because of its type, if it has one and that is not the wanted one.
fn refused(
    alloc: Global,
    choice: &Choice,
    names: &NameTypes,
    text: &Text,
    wanted: Wanted,
    refusal: Refusal,
) -> Result<PairFault, AllocError>
    ensures { IfOk result (λ fault.
        Err fault ≡ as_wanted wanted (root_type (typed_of (source choice.now names.now text.now))) (Err refusal)) }
{
    let found = root_type(
        alloc,
        choice.get().as_slice(),
        names.get().as_slice(),
        text.as_str(),
    )?;
    match &found {
        Some(cel_type) if !is_wanted(wanted, cel_type) => Ok(wrong_type()),
        _ => Ok(PairFault::Expression(refusal)),
    }
}

/// What may be run, if it is of the wanted type.
fn of_wanted_type(wanted: Wanted, compiled: Compiled) -> Result<Compiled, PairFault>
    ensures typed { result ≡ as_wanted wanted (Some (type_at compiled)) (Ok compiled) }
    ensures itself { IfOk result (λ c. c ≡ compiled) }
{
    if is_wanted(wanted, compiled.cel_type()) {
        Ok(compiled)
    } else {
        Err(wrong_type())
    }
}

/// The expression of a text, if it may be run and is of the wanted type, or its fault.
#[tactic(auto, unfolding(crate::specs::Wanted::compiled_as))]
pub fn compile_as(
    alloc: Global,
    choice: &Choice,
    names: &NameTypes,
    text: &Text,
    wanted: Wanted,
) -> Result<Result<Compiled, PairFault>, CompileError>
    ensures compiled { IfOk result (λ c. c ≡ compiled_as wanted (source choice.now names.now text.now)) }
    ensures itself { IfOk result (λ c. IfOk c (λ s. s ≡ source choice.now names.now text.now)) }
    ensures unverified { (at : ℕ) → IsErrOf result (Fault (Unverified at)) → IsUnverified (source choice.now names.now text.now) at }
{
    match compile_text(alloc, choice, names, text)? {
        Ok(compiled) => Ok(of_wanted_type(wanted, compiled)),
        Err(refusal) => Ok(Err(refused(alloc, choice, names, text, wanted, refusal)?)),
    }
}
