//! Operators whose truth value is found where the operands are: comparisons of two integers and of two texts, for equality or for what
//! one has of the other, of a value with null, and what lists and maps have. It needs no room: what any operator makes is moved from
//! call to call.

ghost use Rattle.std.specs.Prelude.{◌≡◌, ◌≤◌, ◌-◌, ◌^◌, min, IfSome, IsTrue, Some, Ok, reverse, option_map};
ghost use Rattle.cel_value.specs.Value.{same, text_weight_of};
ghost use Rattle.cel_value.specs.declared.value.Value as value;
ghost use Rattle.cel_operators.specs.Operators.{row, at_two, less, lesser_weight};
ghost use Rattle.std.specs.Str.{bytes_eq};
ghost use Rattle.cel_operators_applied.specs.Counted.{counted};
ghost use Rattle.cel_machine.specs.Follow.{made_of_two, opposed, truth_made};

use crate::operand::{Operand, read};
use cel_operators::{Made, Operator};
use cel_operators_applied::{in_list, in_map};
use cel_value::{CelError, Value, code_points, tenths};

/// Whether what an operator says of two values holds, and what it charges.
#[derive(Clone, Copy)]
pub struct Comparison {
    pub holds: bool,
    pub charge: u64,
}

/// What an operator says of the two operands on top, if that is found where they are; nothing for other operators and operands.
pub fn compared(op: Operator, operands: &[Result<Operand<'_>, CelError>]) -> Option<Comparison>
    ensures { IfSome result (λ c. made_of_two (row op) (reverse operands.now) ≡ Some (truth_made c)) }
{
    let [.., x, y] = operands else {
        return None;
    };
    match (read(x), read(y)) {
        (Ok(v), Ok(w)) => compared_values(op, v, w),
        _ => None,
    }
}

// What an operator says of two values, if that is found where they are.
fn compared_values(op: Operator, v: &Value, w: &Value) -> Option<Comparison>
    ensures { IfSome result (λ c. counted (at_two (row op) (Some (Ok v.now)) (Some (Ok w.now))) ≡ Some (truth_made c)) }
{
    match op {
        Operator::Equal => is_same(v, w),
        Operator::NotEqual => opposite(is_same(v, w)),
        Operator::Less => is_less(v, w),
        Operator::AtMost => opposite(is_less(w, v)),
        Operator::Greater => is_less(w, v),
        Operator::AtLeast => opposite(is_less(v, w)),
        Operator::StartsWith | Operator::EndsWith | Operator::Contains => does_have(op, v, w),
        Operator::InList | Operator::InMap => is_in(op, v, w),
        _ => None,
    }
}

// Whether a list or a map has a value. It stands apart, since a function writes zeros over the room of its locals whenever it is called.
#[inline(never)]
fn is_in(op: Operator, v: &Value, w: &Value) -> Option<Comparison>
    ensures { IfSome result (λ c. counted (at_two (row op) (Some (Ok v.now)) (Some (Ok w.now))) ≡ Some (truth_made c)) }
{
    let made = match op {
        Operator::InList => in_list(Ok(v), Ok(w)),
        Operator::InMap => in_map(Ok(v), Ok(w)),
        _ => None,
    };
    let Made { outcome, charge } = made?;
    match outcome {
        Ok(Value::Bool(holds)) => Some(Comparison { holds, charge }),
        _ => None,
    }
}

// Whether a text has another: in front, at its end or anywhere. It stands apart for the same reason.
#[inline(never)]
fn does_have(op: Operator, v: &Value, w: &Value) -> Option<Comparison>
    ensures { IfSome result (λ c. counted (at_two (row op) (Some (Ok v.now)) (Some (Ok w.now))) ≡ Some (truth_made c)) }
{
    let (Value::Text(text), Value::Text(part)) = (v, w) else {
        return None;
    };
    let (text, part) = (text.as_str(), part.as_str());
    match op {
        Operator::StartsWith => Some(Comparison {
            holds: cel_operators::starts_with(text, part),
            charge: text_weight(part),
        }),
        Operator::EndsWith => Some(Comparison {
            holds: cel_operators::ends_with(text, part),
            charge: text_weight(part),
        }),
        Operator::Contains => Some(Comparison {
            holds: cel_operators::contains(text, part),
            charge: text_weight(text).saturating_mul(text_weight(part)),
        }),
        _ => None,
    }
}

fn opposite(comparison: Option<Comparison>) -> Option<Comparison>
    ensures { result ≡ option_map opposed comparison }
{
    let Comparison { holds, charge } = comparison?;
    Some(Comparison {
        holds: !holds,
        charge,
    })
}

// Whether two integers or two texts are the same, or a value is null; nothing for other values.
fn is_same(v: &Value, w: &Value) -> Option<Comparison>
    ensures same { IfSome result (λ c. c.holds ≡ same v.now w.now) }
    ensures charge { IfSome result (λ c. c.charge ≡ min (lesser_weight v.now w.now) (2 ^ 64 - 1)) }
{
    match (v, w) {
        (Value::Int(m), Value::Int(n)) => Some(Comparison {
            holds: m == n,
            charge: 1,
        }),
        (Value::Text(a), Value::Text(b)) => Some(are_same_texts(a.as_str(), b.as_str())),
        (_, Value::Null) => Some(is_null(v)),
        _ => None,
    }
}

// Whether a value is null, for what null weighs: no value weighs less.
fn is_null(v: &Value) -> Comparison
    ensures same { result.holds ≡ same v.now value.Null }
    ensures charge { result.charge ≡ min (lesser_weight v.now value.Null) (2 ^ 64 - 1) }
{
    Comparison {
        holds: matches!(v, Value::Null),
        charge: 1,
    }
}

// Whether two texts are the same, for what the lighter weighs. If one is short, the other is not counted.
fn are_same_texts(a: &str, b: &str) -> Comparison
    ensures same { result.holds ≡ bytes_eq a.now b.now }
    ensures charge { result.charge ≡ min (text_weight_of a.now) (text_weight_of b.now) }
{
    let holds = a == b;
    if is_short(a.as_bytes()) && is_begun(b.as_bytes()) {
        return Comparison { holds, charge: 2 };
    }
    if is_short(b.as_bytes()) && is_begun(a.as_bytes()) {
        return Comparison { holds, charge: 2 };
    }
    Comparison {
        holds,
        charge: text_weight(a).min(text_weight(b)),
    }
}

// Whether an integer is less than another; nothing for other values.
fn is_less(v: &Value, w: &Value) -> Option<Comparison>
    ensures less { IfSome result (λ c. less v.now w.now ≡ Some c.holds) }
    ensures charge { IfSome result (λ c. c.charge ≡ min (lesser_weight v.now w.now) (2 ^ 64 - 1)) }
{
    match (v, w) {
        (Value::Int(m), Value::Int(n)) => Some(Comparison {
            holds: m < n,
            charge: 1,
        }),
        _ => None,
    }
}

// What a text weighs. The code points of a short one are not counted.
fn text_weight(text: &str) -> u64
    ensures { result ≡ text_weight_of text.now }
{
    if is_short(text.as_bytes()) {
        2
    } else {
        1 + tenths(code_points(text) as u64)
    }
}

// Whether a text has one to ten bytes, of which the first is a code point.
fn is_short(text: &[u8]) -> bool
    ensures { IsTrue result → text_weight_of text.now ≡ 2 }
{
    match text {
        [first, ..] => *first < 128 && text.len() <= 10,
        [] => false,
    }
}

// Whether the first byte of a text is a code point.
fn is_begun(text: &[u8]) -> bool
    ensures { IsTrue result → 2 ≤ text_weight_of text.now }
{
    match text {
        [first, ..] => *first < 128,
        [] => false,
    }
}
