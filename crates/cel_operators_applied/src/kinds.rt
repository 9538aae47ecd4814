ghost use Rattle.std.specs.Prelude.{◌≡◌, ◌<◌, ◌^◌, Some, Ok, pos};
ghost use Rattle.cel_value.specs.declared.value.Value as value;
ghost use Rattle.cel_operators.specs.Operators.{makes};
ghost use Rattle.cel_operators.specs.declared.operands.Want.TheVariants.{Truth, Whole, Natural, Moment, Lapse, Characters, Items};
ghost use Rattle.cel_operators.specs.declared.operands.Want.TheVariants.{Entries, Members};
ghost use Rattle.cel_operators.specs.Wants.{taken};
ghost use Rattle.cel_operators_applied.specs.Kinds.{alone as alone_of, both as both_of, seen_by};
ghost use Rattle.cel_operators_applied.specs.Lent.{lent};

use base_containers::TextMap;
use cel_operators::Made;
use cel_value::{CelError, Timestamp, Value};

/// What is answered, and what that charges.
pub fn made(outcome: Result<Value, CelError>, charge: u64) -> Option<Made>
    ensures { result ≡ makes (Some outcome) charge }
{
    Some(Made { outcome, charge })
}

/// A count as an answer.
pub fn count(n: usize) -> Result<Value, CelError>
    requires { n < 2 ^ 63 }
    ensures { result ≡ Ok (value.Int (pos n)) }
{
    Ok(Value::Int(n as i64))
}

/// The truth value or error that an operand is, if it is one. Null is an error, here and below.
pub fn truth(x: Result<&Value, CelError>) -> Option<Result<bool, CelError>>
    ensures { result ≡ taken Truth (Some (lent x.entry)) }
{
    match x {
        Ok(Value::Bool(b)) => Some(Ok(*b)),
        Ok(Value::Null) => Some(Err(CelError::NullOperand)),
        Err(e) => Some(Err(e)),
        _ => None,
    }
}

/// The integer or error that an operand is, if it is one.
pub fn whole(x: Result<&Value, CelError>) -> Option<Result<i64, CelError>>
    ensures { result ≡ taken Whole (Some (lent x.entry)) }
{
    match x {
        Ok(Value::Int(n)) => Some(Ok(*n)),
        Ok(Value::Null) => Some(Err(CelError::NullOperand)),
        Err(e) => Some(Err(e)),
        _ => None,
    }
}

/// The unsigned integer or error that an operand is, if it is one.
pub fn natural(x: Result<&Value, CelError>) -> Option<Result<u64, CelError>>
    ensures { result ≡ taken Natural (Some (lent x.entry)) }
{
    match x {
        Ok(Value::Uint(n)) => Some(Ok(*n)),
        Ok(Value::Null) => Some(Err(CelError::NullOperand)),
        Err(e) => Some(Err(e)),
        _ => None,
    }
}

/// The timestamp or error that an operand is, if it is one.
pub fn timestamp(x: Result<&Value, CelError>) -> Option<Result<Timestamp, CelError>>
    ensures { result ≡ taken Moment (Some (lent x.entry)) }
{
    match x {
        Ok(Value::Timestamp(timestamp)) => Some(Ok(*timestamp)),
        Ok(Value::Null) => Some(Err(CelError::NullOperand)),
        Err(e) => Some(Err(e)),
        _ => None,
    }
}

/// The duration or error that an operand is, if it is one.
pub fn duration(x: Result<&Value, CelError>) -> Option<Result<i64, CelError>>
    ensures { result ≡ taken Lapse (Some (lent x.entry)) }
{
    match x {
        Ok(Value::Duration(n)) => Some(Ok(*n)),
        Ok(Value::Null) => Some(Err(CelError::NullOperand)),
        Err(e) => Some(Err(e)),
        _ => None,
    }
}

/// The text or error that an operand is, if it is one.
pub fn characters<'v>(x: Result<&'v Value, CelError>) -> Option<Result<&'v str, CelError>>
    ensures { seen_by (λ s. s.now) result ≡ taken Characters (Some (lent x.entry)) }
{
    match x {
        Ok(Value::Text(text)) => Some(Ok(text.as_str())),
        Ok(Value::Null) => Some(Err(CelError::NullOperand)),
        Err(e) => Some(Err(e)),
        _ => None,
    }
}

/// The list or error that an operand is, if it is one.
pub fn items<'v>(x: Result<&'v Value, CelError>) -> Option<Result<&'v [Value], CelError>>
    ensures { seen_by (λ vs. vs.now) result ≡ taken Items (Some (lent x.entry)) }
{
    match x {
        Ok(Value::List(items)) => Some(Ok(items.as_slice())),
        Ok(Value::Null) => Some(Err(CelError::NullOperand)),
        Err(e) => Some(Err(e)),
        _ => None,
    }
}

/// The map or error that an operand is, if it is one.
pub fn entries<'v>(x: Result<&'v Value, CelError>) -> Option<Result<&'v TextMap<Value>, CelError>>
    ensures { seen_by (λ es. es.now) result ≡ taken Entries (Some (lent x.entry)) }
{
    match x {
        Ok(Value::Map(entries)) => Some(Ok(entries)),
        Ok(Value::Null) => Some(Err(CelError::NullOperand)),
        Err(e) => Some(Err(e)),
        _ => None,
    }
}

/// The entries or error that an operand is, if it is an object or a map.
pub fn members<'v>(x: Result<&'v Value, CelError>) -> Option<Result<&'v TextMap<Value>, CelError>>
    ensures { seen_by (λ es. es.now) result ≡ taken Members (Some (lent x.entry)) }
{
    match x {
        Ok(Value::Object(entries)) => Some(Ok(entries)),
        Ok(Value::Map(entries)) => Some(Ok(entries)),
        Ok(Value::Null) => Some(Err(CelError::NullOperand)),
        Err(e) => Some(Err(e)),
        _ => None,
    }
}

/// One operand, or what is answered without it.
pub fn alone<A>(x: Option<Result<A, CelError>>) -> Result<A, Option<Made>>
    ensures { result ≡ alone_of x }
{
    match x {
        Some(Ok(a)) => Ok(a),
        Some(Err(e)) => Err(made(Err(e), 1)),
        None => Err(None),
    }
}

/// Two operands, or what is answered without them: an operator fails with the leftmost error.
pub fn both<A: Drop, B: Drop>(
    x: Option<Result<A, CelError>>,
    y: Option<Result<B, CelError>>,
) -> Result<(A, B), Option<Made>>
    ensures { result ≡ both_of x y }
{
    match (x, y) {
        (Some(Ok(a)), Some(Ok(b))) => Ok((a, b)),
        (Some(Ok(_)), Some(Err(e))) => Err(made(Err(e), 1)),
        (Some(Err(e)), Some(_)) => Err(made(Err(e), 1)),
        _ => Err(None),
    }
}
