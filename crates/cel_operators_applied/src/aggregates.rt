ghost use Rattle.std.specs.Prelude.{◌≡◌, ◌+◌, ◌-◌, ◌^◌, IfOk, IfSome, Some, Ok, length, sum, max, min, if◌then◌else◌};
ghost use Rattle.std.specs.Option.{option_map};
ghost use Rattle.cel_value.specs.declared.value.Value as value;
ghost use Rattle.cel_value.specs.declared.value.Value.{out-Value};
ghost use Rattle.cel_operators.specs.Joined.{text_of, texts_of};
ghost use Rattle.cel_operators.specs.Operators.{row, operands_of, at_one, at_two, makes, extreme_of, lesser_int, greater_int, sum_of_ints};
ghost use Rattle.cel_operators.specs.Operators.{int_or_overflow, uint_or_overflow};
ghost use Rattle.cel_operators.specs.declared.operands.Operands.TheVariants as operands;
ghost use Rattle.cel_operators.specs.declared.operands.Want.TheVariants.{Wholes, Naturals, Texts};
ghost use Rattle.cel_operators.specs.Wants.{taken, whole_at, natural_at, wholes_of, naturals_of, is_there};
ghost use Rattle.cel_operators_applied.specs.Counted.{counted};
ghost use Rattle.cel_operators_applied.specs.Kinds.{seen_by, texts_in};
ghost use Rattle.cel_operators_applied.specs.Lent.{lent};

use crate::kinds::{both, characters, made};
use crate::lists::items_weight;
use crate::texts::tenths_in;
use cel_operators::{Made, Operator, joined};
use cel_value::{CelError, Value};
use std::alloc::{AllocError, Global};

pub fn on_wholes(op: Operator, x: Result<&Value, CelError>) -> Option<Made>
    requires { operands_of (row op) ≡ operands.One Wholes }
    ensures { result ≡ counted (at_one (row op) (Some (lent x.entry))) }
{
    match x {
        Ok(Value::List(items)) => of_wholes(op, items.as_slice()),
        Ok(Value::Null) => made(Err(CelError::NullOperand), 1),
        Err(e) => made(Err(e), 1),
        _ => None,
    }
}

fn of_wholes(op: Operator, items: &[Value]) -> Option<Made>
    requires { operands_of (row op) ≡ operands.One Wholes }
    ensures { result ≡ counted (at_one (row op) (Some (Ok (value.List items.now)))) }
{
    match op {
        Operator::SumInts => made_of(sum_of_wholes(items), items),
        Operator::MinInts => made_of(extreme_of_wholes(items, true), items),
        Operator::MaxInts => made_of(extreme_of_wholes(items, false), items),
        _ => unreachable!(),
    }
}

/// What is made of items, if each is of the kind: a pass over them is charged.
fn made_of(folded: Option<Result<Value, CelError>>, items: &[Value]) -> Option<Made>
    ensures { result ≡ makes folded (min (1 + length items.now) (2 ^ 64 - 1)) }
{
    made(folded?, (items.len() as u64).saturating_add(1))
}

fn sum_of_wholes(items: &[Value]) -> Option<Result<Value, CelError>>
    ensures { result ≡ option_map (λ ns. int_or_overflow (sum_of_ints ns)) (wholes_of items.now) }
{
    match i64::try_from(total_of_wholes(items)?) {
        Ok(total) => Some(Ok(Value::Int(total))),
        Err(_) => Some(Err(CelError::Overflow)),
    }
}

/// The sum of integers. So many of them have one of 128 bits.
fn total_of_wholes(items: &[Value]) -> Option<i128>
    ensures { result ≡ option_map sum_of_ints (wholes_of items.now) }
{
    let mut total: i128 = 0;
    for item in items {
        let n = whole_in(item)?;
        total += i128::from(n);
    }
    Some(total)
}

/// The least of integers, or the greatest.
fn extreme_of_wholes(items: &[Value], least: bool) -> Option<Result<Value, CelError>>
    ensures { result ≡ option_map (extreme_of (if least then lesser_int else greater_int) value.Int) (wholes_of items.now) }
{
    let [first, rest @ ..] = items else {
        return Some(Err(CelError::EmptyList));
    };
    let mut best = whole_in(first)?;
    for item in rest {
        let n = whole_in(item)?;
        best = left_of_wholes(best, n, least);
    }
    Some(Ok(Value::Int(best)))
}

/// The lesser of two integers, or the greater.
fn left_of_wholes(m: i64, n: i64, least: bool) -> i64
    ensures { result ≡ (if least then lesser_int else greater_int) m n }
{
    if least {
        if n < m { n } else { m }
    } else if m < n {
        n
    } else {
        m
    }
}

fn whole_in(item: &Value) -> Option<i64>
    ensures { result ≡ whole_at (out-Value item.now) }
{
    match item {
        Value::Int(n) => Some(*n),
        _ => None,
    }
}

pub fn on_naturals(op: Operator, x: Result<&Value, CelError>) -> Option<Made>
    requires { operands_of (row op) ≡ operands.One Naturals }
    ensures { result ≡ counted (at_one (row op) (Some (lent x.entry))) }
{
    match x {
        Ok(Value::List(items)) => of_naturals(op, items.as_slice()),
        Ok(Value::Null) => made(Err(CelError::NullOperand), 1),
        Err(e) => made(Err(e), 1),
        _ => None,
    }
}

fn of_naturals(op: Operator, items: &[Value]) -> Option<Made>
    requires { operands_of (row op) ≡ operands.One Naturals }
    ensures { result ≡ counted (at_one (row op) (Some (Ok (value.List items.now)))) }
{
    match op {
        Operator::SumUints => made_of(sum_of_naturals(items), items),
        Operator::MinUints => made_of(extreme_of_naturals(items, true), items),
        Operator::MaxUints => made_of(extreme_of_naturals(items, false), items),
        _ => unreachable!(),
    }
}

fn sum_of_naturals(items: &[Value]) -> Option<Result<Value, CelError>>
    ensures { result ≡ option_map (λ ns. uint_or_overflow (sum ns)) (naturals_of items.now) }
{
    match u64::try_from(total_of_naturals(items)?) {
        Ok(total) => Some(Ok(Value::Uint(total))),
        Err(_) => Some(Err(CelError::Overflow)),
    }
}

fn total_of_naturals(items: &[Value]) -> Option<u128>
    ensures { result ≡ option_map sum (naturals_of items.now) }
{
    let mut total: u128 = 0;
    for item in items {
        let n = natural_in(item)?;
        total += u128::from(n);
    }
    Some(total)
}

fn extreme_of_naturals(items: &[Value], least: bool) -> Option<Result<Value, CelError>>
    ensures { result ≡ option_map (extreme_of (if least then min else max) value.Uint) (naturals_of items.now) }
{
    let [first, rest @ ..] = items else {
        return Some(Err(CelError::EmptyList));
    };
    let mut best = natural_in(first)?;
    for item in rest {
        let n = natural_in(item)?;
        best = left_of_naturals(best, n, least);
    }
    Some(Ok(Value::Uint(best)))
}

fn left_of_naturals(m: u64, n: u64, least: bool) -> u64
    ensures { result ≡ (if least then min else max) m n }
{
    if least { m.min(n) } else { m.max(n) }
}

fn natural_in(item: &Value) -> Option<u64>
    ensures { result ≡ natural_at (out-Value item.now) }
{
    match item {
        Value::Uint(n) => Some(*n),
        _ => None,
    }
}

pub fn join(
    alloc: Global,
    x: Result<&Value, CelError>,
    y: Result<&Value, CelError>,
) -> Result<Option<Made>, AllocError>
    ensures { IfOk result (λ made. made ≡ counted (at_two (row Operator.Join) (Some (lent x.entry)) (Some (lent y.entry)))) }
{
    match both(texts(x), characters(y)) {
        Ok((parts, separator)) => joined_by(alloc, parts, separator),
        Err(made) => Ok(made),
    }
}

/// The texts or the error that an operand is, if it is a list of texts. Null is an error.
fn texts<'v>(x: Result<&'v Value, CelError>) -> Option<Result<&'v [Value], CelError>>
    ensures taken { seen_by (λ vs. texts_in vs.now) result ≡ taken Texts (Some (lent x.entry)) }
    ensures listed { IfSome result (λ r. IfOk r (λ vs. texts_of vs.now ≡ Some (texts_in vs.now))) }
{
    match x {
        Ok(Value::List(items)) => {
            let items = items.as_slice();
            if are_texts(items) {
                Some(Ok(items))
            } else {
                None
            }
        }
        Ok(Value::Null) => Some(Err(CelError::NullOperand)),
        Err(e) => Some(Err(e)),
        _ => None,
    }
}

fn are_texts(items: &[Value]) -> bool
    ensures { result ≡ is_there (texts_of items.now) }
{
    for item in items {
        if !is_text(item) {
            return false;
        }
    }
    true
}

fn is_text(item: &Value) -> bool
    ensures { result ≡ is_there (text_of item.now) }
{
    matches!(item, Value::Text(_))
}

fn joined_by(alloc: Global, parts: &[Value], separator: &str) -> Result<Option<Made>, AllocError>
    ensures { IfOk result (λ made. made
        ≡ counted (at_two (row Operator.Join) (Some (Ok (value.List parts.now))) (Some (Ok (value.Text separator.now))))) }
{
    let separators = (parts.len() as u64).saturating_mul(1 + tenths_in(separator));
    let charge = items_weight(parts)
        .saturating_add(2)
        .saturating_add(separators);
    match joined(alloc, parts, separator)? {
        Some(text) => Ok(made(Ok(Value::Text(text)), charge)),
        None => Ok(None),
    }
}
