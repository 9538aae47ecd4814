//! Fields by their selectors, and whether they are there.

ghost use Rattle.std.specs.Prelude.{◌≡◌, ◌++◌, codes, is_none, option_copied, option_map};
ghost use Rattle.std.specs.Str.{bytes_eq};
ghost use Rattle.cel_value.specs.declared.expr.Expr.{out-Expr};
ghost use Rattle.base_containers.specs.Failures.{Answers};
ghost use Rattle.cel_check.specs.Typing.{selected, with_text, own_name, name_in, Follows, FollowsUnless};
ghost use Rattle.cel_check.specs.Typing.{is_word, names_in, part_of, slot_from, variable_in, word_at};
ghost use Rattle.cel_operators.specs.Wants.{limit_of};
ghost use Rattle.cel_operators.specs.declared.operands.Want.TheVariants.{Members};

use crate::bindings::Bindings;
use crate::fault::CheckError;
use crate::node::{new_node, refused, slot_node};
use crate::selectors::selects;
use crate::tree::{Form, TypedTree};
use base_containers::{Boxed, Keyed, Shared, Text};
use cel_operators::{TextOperator, TypeRule, Untyped, without_null};
use cel_value::{CelType, Expr, Field, Syntax};
use std::alloc::Global;

/// The slot of a variable, or else the field that a selector selects.
pub fn selected(
    alloc: Global,
    place: usize,
    variable: Option<(usize, &CelType)>,
    selector: &str,
    operand: Result<Boxed<TypedTree>, CheckError>,
) -> Result<Boxed<TypedTree>, CheckError>
    ensures { FollowsUnless (option_map (λ s. (s.0, s.1.now)) variable.entry) operand result
        (selected place TextOperator.Select selector.now) }
{
    match variable {
        Some((number, cel_type)) => slot_node(alloc, number, cel_type),
        None => selection(alloc, place, TextOperator::Select, selector, operand),
    }
}

/// An operator at the field that a selector selects, or at the key that it is: NoField if it selects none, and for an operand that has
/// neither fields nor keys.
pub fn selection(
    alloc: Global,
    place: usize,
    operator: TextOperator,
    selector: &str,
    operand: Result<Boxed<TypedTree>, CheckError>,
) -> Result<Boxed<TypedTree>, CheckError>
    ensures { Follows operand result (selected place operator selector.now) }
{
    let operand = operand?;
    match name_in(selector, &operand.get().cel_type) {
        Some(name) => {
            let name = Text::from_str(alloc, name)?;
            with_text(alloc, place, operator, operand, name)
        }
        None => Err(refused(TypeRule::NoField, place)),
    }
}

// An operator with a text over its operand.
fn with_text(
    alloc: Global,
    place: usize,
    operator: TextOperator,
    operand: Boxed<TypedTree>,
    text: Text,
) -> Result<Boxed<TypedTree>, CheckError>
    ensures { Answers (with_text place operator text operand) result }
{
    match operator.type_of(text.as_str(), &operand.get().cel_type) {
        Ok(cel_type) => new_node(alloc, cel_type, Form::WithText(operator, operand, text)),
        Err(Untyped::Fault(rule)) => Err(refused(rule, place)),
        Err(Untyped::OutOfMemory) => Err(CheckError::OutOfMemory),
    }
}

// The own name that a selector selects in values of a type.
fn name_in<'n>(selector: &'n str, cel_type: &'n CelType) -> Option<&'n str>
    ensures { option_map (λ s. s.now) result ≡ name_in selector.now (limit_of Members cel_type.now) }
{
    match without_null(cel_type) {
        CelType::Object { fields } => own_name(selector, fields.get().as_slice()),
        CelType::Map { .. } => Some(selector),
        _ => None,
    }
}

// The name of the first field that a selector selects.
fn own_name<'n>(selector: &str, fields: &'n [Keyed<Field<CelType>>]) -> Option<&'n str>
    ensures { option_map (λ s. s.now) result ≡ own_name selector.now fields.now }
{
    for field in fields {
        if selects(selector, field.key.as_str()) {
            return Some(field.key.as_str());
        }
    }
    None
}

/// The slot of the variable that is selected, if one is: after the word `variables`, if no open loop's item has that name.
#[tactic(auto, using(crate::proofs::Words::word_is))]
pub fn variable_in<'n>(
    names: &Bindings<'n>,
    operand: &Expr,
    name: &str,
) -> Option<(usize, &'n CelType)>
    ensures { option_map (λ s. (s.0, s.1.now)) result ≡ variable_in (part_of operand.now) name.now (names_in names.now) }
{
    if is_name("variables", operand) && is_free("variables", names.locals.as_slice()) {
        variable_slot(name, names.slots)
    } else {
        None
    }
}

// Whether an expression is this name.
fn is_name(word: &str, expr: &Expr) -> bool
    ensures { result ≡ is_word word.now (word_at (out-Expr expr.now).form) }
{
    match &expr.form {
        Syntax::Name(name) => word == name.as_str(),
        _ => false,
    }
}

// Whether no open loop's item has this name.
fn is_free(name: &str, locals: &[Keyed<Shared<CelType>>]) -> bool
    ensures { result ≡ is_none (slot_from 0 name.now locals.now) }
{
    for local in locals {
        if local.key.as_str() == name {
            return false;
        }
    }
    true
}

// The slot of the variable of a name.
fn variable_slot<'n>(name: &str, slots: &'n [Keyed<CelType>]) -> Option<(usize, &'n CelType)>
    ensures { option_map (λ s. (s.0, s.1.now)) result ≡ slot_from 0 (codes "variables." ++ name.now) slots.now }
{
    for (number, slot) in slots.iter().enumerate() {
        if is_variable(slot.key.as_str(), name) {
            return Some((number, &slot.value));
        }
    }
    None
}

// Whether a slot's name is that of the variable of a name.
#[tactic(auto, using(crate::proofs::Words::behind))]
fn is_variable(slot: &str, name: &str) -> bool
    ensures { result ≡ bytes_eq slot.now (codes "variables." ++ name.now) }
{
    match slot.as_bytes().strip_prefix("variables.".as_bytes()) {
        Some(own) => own == name.as_bytes(),
        None => false,
    }
}
