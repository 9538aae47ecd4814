//! Sums, differences and products of two integers, which are found where the operands are. They need no room: what any operator makes
//! is moved from call to call.

ghost use Rattle.std.specs.Prelude.{◌≡◌, IfSome, Some, Ok, reverse};
ghost use Rattle.cel_value.specs.declared.value.Value as value;
ghost use Rattle.cel_operators.specs.Operators.{row, at_two};
ghost use Rattle.cel_operators_applied.specs.Counted.{counted};
ghost use Rattle.cel_machine.specs.Follow.{int_made, made_of_two};

use crate::operand::{Operand, read};
use cel_operators::Operator;
use cel_value::{CelError, Value};

/// The integer that an operator makes of the two on top; nothing for other operators and operands, and if it is out of range.
pub fn calculated(op: Operator, operands: &[Result<Operand<'_>, CelError>]) -> Option<i64>
    ensures { IfSome result (λ n. made_of_two (row op) (reverse operands.now) ≡ Some (int_made n)) }
{
    let [.., x, y] = operands else {
        return None;
    };
    match (read(x), read(y)) {
        (Ok(Value::Int(m)), Ok(Value::Int(n))) => calculated_of(op, *m, *n),
        _ => None,
    }
}

// The integer that an operator makes of two integers.
fn calculated_of(op: Operator, m: i64, n: i64) -> Option<i64>
    ensures { IfSome result (λ k. counted (at_two (row op) (Some (Ok (value.Int m))) (Some (Ok (value.Int n)))) ≡ Some (int_made k)) }
{
    match op {
        Operator::Add => m.checked_add(n),
        Operator::Subtract => m.checked_sub(n),
        Operator::Multiply => m.checked_mul(n),
        _ => None,
    }
}
