ghost use Rattle.std.specs.Prelude.{◌≡◌, ◌+◌, ◌-◌, ◌*◌, ◌/◌, ◌%◌, ◌^◌, IfOk, Some, Ok, pos};
ghost use Rattle.std.specs.Prelude.{neg_ℤ, ◌+ℤ◌, ◌-ℤ◌, ◌*ℤ◌, int_div, int_rem};
ghost use Rattle.cel_value.specs.declared.value.Value as value;
ghost use Rattle.cel_operators.specs.Operators.{row, operands_of, at_one, at_two, makes, int_or_overflow, uint_or_overflow};
ghost use Rattle.cel_operators.specs.Operators.{uint_difference, uint_divided, uint_of_int, divided};
ghost use Rattle.cel_operators.specs.declared.operands.Operands.TheVariants as operands;
ghost use Rattle.cel_operators.specs.declared.operands.Want.TheVariants.{Truth, Whole, Natural};
ghost use Rattle.cel_operators_applied.specs.Counted.{counted};
ghost use Rattle.cel_operators_applied.specs.Lent.{lent};

use crate::kinds::{alone, both, made, natural, truth, whole};
use cel_operators::{Made, Operator, printed_int, printed_uint};
use cel_value::{CelError, Value};
use std::alloc::{AllocError, Global};

pub fn on_truth(x: Result<&Value, CelError>) -> Option<Made>
    ensures { result ≡ counted (at_one (row Operator.Not) (Some (lent x.entry))) }
{
    match alone(truth(x)) {
        Ok(b) => made(Ok(Value::Bool(!b)), 1),
        Err(made) => made,
    }
}

pub fn on_int(
    alloc: Global,
    op: Operator,
    x: Result<&Value, CelError>,
) -> Result<Option<Made>, AllocError>
    requires { operands_of (row op) ≡ operands.One Whole }
    ensures { IfOk result (λ made. made ≡ counted (at_one (row op) (Some (lent x.entry)))) }
{
    match alone(whole(x)) {
        Ok(n) => Ok(made(of_int(alloc, op, n)?, 1)),
        Err(made) => Ok(made),
    }
}

fn of_int(alloc: Global, op: Operator, n: i64) -> Result<Result<Value, CelError>, AllocError>
    requires { operands_of (row op) ≡ operands.One Whole }
    ensures { IfOk result (λ x. at_one (row op) (Some (Ok (value.Int n))) ≡ makes (Some x) 1) }
{
    match op {
        Operator::Negate => Ok(negated(n)),
        Operator::StringOfInt => Ok(Ok(Value::Text(printed_int(alloc, n)?))),
        Operator::IntOfInt => Ok(Ok(Value::Int(n))),
        Operator::UintOfInt => Ok(unsigned(n)),
        _ => unreachable!(),
    }
}

fn unsigned(n: i64) -> Result<Value, CelError>
    ensures { result ≡ uint_of_int n }
{
    match u64::try_from(n) {
        Ok(n) => Ok(Value::Uint(n)),
        Err(_) => Err(CelError::Overflow),
    }
}

pub fn on_uint(
    alloc: Global,
    op: Operator,
    x: Result<&Value, CelError>,
) -> Result<Option<Made>, AllocError>
    requires { operands_of (row op) ≡ operands.One Natural }
    ensures { IfOk result (λ made. made ≡ counted (at_one (row op) (Some (lent x.entry)))) }
{
    match alone(natural(x)) {
        Ok(n) => Ok(made(of_uint(alloc, op, n)?, 1)),
        Err(made) => Ok(made),
    }
}

fn of_uint(alloc: Global, op: Operator, n: u64) -> Result<Result<Value, CelError>, AllocError>
    requires { operands_of (row op) ≡ operands.One Natural }
    ensures { IfOk result (λ x. at_one (row op) (Some (Ok (value.Uint n))) ≡ makes (Some x) 1) }
{
    match op {
        Operator::StringOfUint => Ok(Ok(Value::Text(printed_uint(alloc, n)?))),
        Operator::IntOfUint => Ok(signed(n)),
        Operator::UintOfUint => Ok(Ok(Value::Uint(n))),
        _ => unreachable!(),
    }
}

fn signed(n: u64) -> Result<Value, CelError>
    ensures { result ≡ int_or_overflow (pos n) }
{
    match i64::try_from(n) {
        Ok(n) => Ok(Value::Int(n)),
        Err(_) => Err(CelError::Overflow),
    }
}

pub fn on_ints(
    op: Operator,
    x: Result<&Value, CelError>,
    y: Result<&Value, CelError>,
) -> Option<Made>
    requires { operands_of (row op) ≡ operands.Two Whole Whole }
    ensures { result ≡ counted (at_two (row op) (Some (lent x.entry)) (Some (lent y.entry))) }
{
    match both(whole(x), whole(y)) {
        Ok((m, n)) => made(of_ints(op, m, n), 1),
        Err(made) => made,
    }
}

fn of_ints(op: Operator, m: i64, n: i64) -> Result<Value, CelError>
    requires { operands_of (row op) ≡ operands.Two Whole Whole }
    ensures { at_two (row op) (Some (Ok (value.Int m))) (Some (Ok (value.Int n))) ≡ makes (Some result) 1 }
{
    match op {
        Operator::Add => sum(m, n),
        Operator::Subtract => difference(m, n),
        Operator::Multiply => product(m, n),
        Operator::Divide => quotient(m, n),
        Operator::Remainder => remainder(m, n),
        _ => unreachable!(),
    }
}

pub fn on_uints(
    op: Operator,
    x: Result<&Value, CelError>,
    y: Result<&Value, CelError>,
) -> Option<Made>
    requires { operands_of (row op) ≡ operands.Two Natural Natural }
    ensures { result ≡ counted (at_two (row op) (Some (lent x.entry)) (Some (lent y.entry))) }
{
    match both(natural(x), natural(y)) {
        Ok((m, n)) => made(of_uints(op, m, n), 1),
        Err(made) => made,
    }
}

fn of_uints(op: Operator, m: u64, n: u64) -> Result<Value, CelError>
    requires { operands_of (row op) ≡ operands.Two Natural Natural }
    ensures { at_two (row op) (Some (Ok (value.Uint m))) (Some (Ok (value.Uint n))) ≡ makes (Some result) 1 }
{
    match op {
        Operator::AddUint => uint_sum(m, n),
        Operator::SubtractUint => uint_difference(m, n),
        Operator::MultiplyUint => uint_product(m, n),
        Operator::DivideUint => uint_quotient(m, n),
        Operator::RemainderUint => uint_remainder(m, n),
        _ => unreachable!(),
    }
}

fn uint_sum(m: u64, n: u64) -> Result<Value, CelError>
    ensures { result ≡ uint_or_overflow (m + n) }
{
    match m.checked_add(n) {
        Some(sum) => Ok(Value::Uint(sum)),
        None => Err(CelError::Overflow),
    }
}

fn uint_difference(m: u64, n: u64) -> Result<Value, CelError>
    ensures { result ≡ uint_difference m n }
{
    match m.checked_sub(n) {
        Some(difference) => Ok(Value::Uint(difference)),
        None => Err(CelError::Overflow),
    }
}

fn uint_product(m: u64, n: u64) -> Result<Value, CelError>
    ensures { result ≡ uint_or_overflow (m * n) }
{
    match m.checked_mul(n) {
        Some(product) => Ok(Value::Uint(product)),
        None => Err(CelError::Overflow),
    }
}

fn uint_quotient(m: u64, n: u64) -> Result<Value, CelError>
    ensures { result ≡ uint_divided (λ a b. a / b) m n }
{
    match m.checked_div(n) {
        Some(quotient) => Ok(Value::Uint(quotient)),
        None => Err(CelError::DivideByZero),
    }
}

fn uint_remainder(m: u64, n: u64) -> Result<Value, CelError>
    ensures { result ≡ uint_divided (λ a b. a % b) m n }
{
    match m.checked_rem(n) {
        Some(remainder) => Ok(Value::Uint(remainder)),
        None => Err(CelError::DivideByZero),
    }
}

fn negated(n: i64) -> Result<Value, CelError>
    ensures { result ≡ int_or_overflow (neg_ℤ n) }
{
    match n.checked_neg() {
        Some(negated) => Ok(Value::Int(negated)),
        None => Err(CelError::Overflow),
    }
}

fn sum(m: i64, n: i64) -> Result<Value, CelError>
    ensures { result ≡ int_or_overflow (m +ℤ n) }
{
    match m.checked_add(n) {
        Some(sum) => Ok(Value::Int(sum)),
        None => Err(CelError::Overflow),
    }
}

fn difference(m: i64, n: i64) -> Result<Value, CelError>
    ensures { result ≡ int_or_overflow (m -ℤ n) }
{
    match m.checked_sub(n) {
        Some(difference) => Ok(Value::Int(difference)),
        None => Err(CelError::Overflow),
    }
}

fn product(m: i64, n: i64) -> Result<Value, CelError>
    ensures { result ≡ int_or_overflow (m *ℤ n) }
{
    match m.checked_mul(n) {
        Some(product) => Ok(Value::Int(product)),
        None => Err(CelError::Overflow),
    }
}

fn quotient(m: i64, n: i64) -> Result<Value, CelError>
    ensures { result ≡ divided int_div m n }
{
    if n == 0 {
        return Err(CelError::DivideByZero);
    }
    match m.checked_div(n) {
        Some(quotient) => Ok(Value::Int(quotient)),
        None => Err(CelError::Overflow),
    }
}

fn remainder(m: i64, n: i64) -> Result<Value, CelError>
    ensures { result ≡ divided int_rem m n }
{
    if n == 0 {
        return Err(CelError::DivideByZero);
    }
    match m.checked_rem(n) {
        Some(remainder) => Ok(Value::Int(remainder)),
        None => Err(CelError::Overflow),
    }
}
