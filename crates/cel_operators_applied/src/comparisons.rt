ghost use Rattle.std.specs.Prelude.{◌≡◌, ◌-◌, ◌^◌, min, Some};
ghost use Rattle.std.specs.Ordering.{is_lt, nat_cmp};
ghost use Rattle.std.specs.Cmp.Lexicographic.{slice_cmp};
ghost use Rattle.std.specs.Str.{chars};
ghost use Rattle.cel_value.specs.declared.value.Value as value;
ghost use Rattle.cel_operators.specs.Operators.{row, operands_of, at_two, makes, less as order_of, lesser_weight as weight_of_lesser};
ghost use Rattle.cel_operators.specs.declared.operands.Operands.TheVariants as operands;
ghost use Rattle.cel_operators.specs.declared.operands.Want.TheVariants.{Any, Ordered};
ghost use Rattle.cel_operators.specs.Wants.{taken};
ghost use Rattle.cel_operators_applied.specs.Families.{truth_where};
ghost use Rattle.cel_operators_applied.specs.Kinds.{seen_by};
ghost use Rattle.cel_operators_applied.specs.Counted.{counted};
ghost use Rattle.cel_operators_applied.specs.Lent.{lent};

use crate::kinds::{both, made};
use cel_operators::{Made, Operator};
use cel_value::{CelError, Value, equal, weight};

pub fn equality(
    op: Operator,
    x: Result<&Value, CelError>,
    y: Result<&Value, CelError>,
) -> Option<Made>
    requires { operands_of (row op) ≡ operands.Two Any Any }
    ensures { result ≡ counted (at_two (row op) (Some (lent x.entry)) (Some (lent y.entry))) }
{
    match both(Some(x), Some(y)) {
        Ok((v, w)) => made(Ok(Value::Bool(equals(op, v, w))), lesser_weight(v, w)),
        Err(made) => made,
    }
}

fn equals(op: Operator, v: &Value, w: &Value) -> bool
    requires { operands_of (row op) ≡ operands.Two Any Any }
    ensures { at_two (row op) (Some (Ok v.now)) (Some (Ok w.now)) ≡ makes (Some (Ok (value.Bool result))) (weight_of_lesser v.now w.now) }
{
    match op {
        Operator::Equal => equal(v, w),
        Operator::NotEqual => !equal(v, w),
        _ => unreachable!(),
    }
}

fn lesser_weight(v: &Value, w: &Value) -> u64
    ensures { result ≡ min (weight_of_lesser v.now w.now) (2 ^ 64 - 1) }
{
    weight(v).min(weight(w))
}

/// The value that has an order, or the error, that an operand is, if it is one. Null is an error.
fn ordered<'v>(x: Result<&'v Value, CelError>) -> Option<Result<&'v Value, CelError>>
    ensures { seen_by (λ v. v.now) result ≡ taken Ordered (Some (lent x.entry)) }
{
    match x {
        Ok(Value::Null) => Some(Err(CelError::NullOperand)),
        Ok(
            Value::Bool(_)
            | Value::Int(_)
            | Value::Uint(_)
            | Value::Text(_)
            | Value::Timestamp(_)
            | Value::Duration(_),
        )
        | Err(_) => Some(x),
        _ => None,
    }
}

pub fn order(op: Operator, x: Result<&Value, CelError>, y: Result<&Value, CelError>) -> Option<Made>
    requires { operands_of (row op) ≡ operands.Two Ordered Ordered }
    ensures { result ≡ counted (at_two (row op) (Some (lent x.entry)) (Some (lent y.entry))) }
{
    match both(ordered(x), ordered(y)) {
        Ok((v, w)) => compared(op, v, w),
        Err(made) => made,
    }
}

fn compared(op: Operator, v: &Value, w: &Value) -> Option<Made>
    requires family { operands_of (row op) ≡ operands.Two Ordered Ordered }
    requires left { taken Ordered (Some (Ok v.now)) ≡ Some (Ok v.now) }
    requires right { taken Ordered (Some (Ok w.now)) ≡ Some (Ok w.now) }
    ensures { result ≡ counted (at_two (row op) (Some (Ok v.now)) (Some (Ok w.now))) }
{
    match op {
        Operator::Less => truth(less(v, w), true, lesser_weight(v, w)),
        Operator::AtMost => truth(less(w, v), false, lesser_weight(v, w)),
        Operator::Greater => truth(less(w, v), true, lesser_weight(v, w)),
        Operator::AtLeast => truth(less(v, w), false, lesser_weight(v, w)),
        _ => unreachable!(),
    }
}

fn less(v: &Value, w: &Value) -> Option<bool>
    ensures { result ≡ order_of v.now w.now }
{
    match (v, w) {
        (Value::Bool(a), Value::Bool(b)) => Some(!*a && *b),
        (Value::Int(m), Value::Int(n)) => Some(m < n),
        (Value::Uint(m), Value::Uint(n)) => Some(m < n),
        (Value::Text(a), Value::Text(b)) => Some(comes_before(a.as_str(), b.as_str())),
        (Value::Timestamp(s), Value::Timestamp(t)) => Some(s.nanosecond() < t.nanosecond()),
        (Value::Duration(m), Value::Duration(n)) => Some(m < n),
        _ => None,
    }
}

/// Whether a text comes before another by their code points. UTF-8 has the bytes in the same order.
fn comes_before(a: &str, b: &str) -> bool
    ensures { result ≡ is_lt (slice_cmp nat_cmp (chars a.now) (chars b.now)) }
{
    a < b
}

fn truth(b: Option<bool>, is: bool, charge: u64) -> Option<Made>
    ensures { result ≡ makes (truth_where is b) charge }
{
    match b {
        None => None,
        Some(b) => made(Ok(Value::Bool(b == is)), charge),
    }
}
