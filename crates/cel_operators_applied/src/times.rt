ghost use Rattle.std.specs.Prelude.{◌≡◌, IfOk, Some, Ok, ◌+ℤ◌, ◌-ℤ◌};
ghost use Rattle.cel_value.specs.declared.value.Value as value;
ghost use Rattle.cel_value.specs.Instants.{duration_in_range};
ghost use Rattle.cel_value.specs.Printed.{timestamp_text};
ghost use Rattle.cel_operators.specs.Operators.{row, operands_of, at_one, at_two, makes, or_overflow, string_of_duration};
ghost use Rattle.cel_operators.specs.declared.operands.Operands.TheVariants as operands;
ghost use Rattle.cel_operators.specs.declared.operands.Want.TheVariants.{Moment, Lapse};
ghost use Rattle.cel_operators_applied.specs.Counted.{counted};
ghost use Rattle.cel_operators_applied.specs.Lent.{lent};

use crate::kinds::{alone, both, duration, made, timestamp};
use cel_operators::{Made, Operator};
use cel_value::{
    CelError, Timestamp, Value, hours, minutes, printed_duration, printed_timestamp, seconds,
};
use std::alloc::{AllocError, Global};

pub fn on_timestamp(
    alloc: Global,
    op: Operator,
    x: Result<&Value, CelError>,
) -> Result<Option<Made>, AllocError>
    requires { operands_of (row op) ≡ operands.One Moment }
    ensures { IfOk result (λ made. made ≡ counted (at_one (row op) (Some (lent x.entry)))) }
{
    match alone(timestamp(x)) {
        Ok(timestamp) => Ok(made(of_timestamp(alloc, op, timestamp)?, 1)),
        Err(made) => Ok(made),
    }
}

fn of_timestamp(
    alloc: Global,
    op: Operator,
    timestamp: Timestamp,
) -> Result<Result<Value, CelError>, AllocError>
    requires { operands_of (row op) ≡ operands.One Moment }
    ensures { IfOk result (λ x. at_one (row op) (Some (Ok (value.Timestamp timestamp))) ≡ makes (Some x) 1) }
{
    match op {
        Operator::StringOfTimestamp => timestamp_shown(alloc, timestamp),
        Operator::IntOfTimestamp => Ok(Ok(Value::Int(timestamp.second()))),
        Operator::YearOf => Ok(Ok(Value::Int(timestamp.year()))),
        Operator::MonthOf => Ok(Ok(Value::Int(timestamp.month()))),
        Operator::DateOf => Ok(Ok(Value::Int(timestamp.date()))),
        Operator::DayOfMonth => Ok(Ok(Value::Int(timestamp.day_of_month()))),
        Operator::DayOfWeek => Ok(Ok(Value::Int(timestamp.day_of_week()))),
        Operator::DayOfYear => Ok(Ok(Value::Int(timestamp.day_of_year()))),
        Operator::HourOf => Ok(Ok(Value::Int(timestamp.hour()))),
        Operator::MinuteOf => Ok(Ok(Value::Int(timestamp.minute()))),
        Operator::SecondOf => Ok(Ok(Value::Int(timestamp.second_of_minute()))),
        Operator::MillisecondOf => Ok(Ok(Value::Int(timestamp.millisecond()))),
        _ => unreachable!(),
    }
}

fn timestamp_shown(
    alloc: Global,
    timestamp: Timestamp,
) -> Result<Result<Value, CelError>, AllocError>
    ensures { IfOk result (λ x. x ≡ Ok (value.Text (timestamp_text timestamp))) }
{
    Ok(Ok(Value::Text(printed_timestamp(alloc, timestamp)?)))
}

pub fn on_duration(
    alloc: Global,
    op: Operator,
    x: Result<&Value, CelError>,
) -> Result<Option<Made>, AllocError>
    requires { operands_of (row op) ≡ operands.One Lapse }
    ensures { IfOk result (λ made. made ≡ counted (at_one (row op) (Some (lent x.entry)))) }
{
    match alone(duration(x)) {
        Ok(n) => Ok(made(of_duration(alloc, op, n)?, 1)),
        Err(made) => Ok(made),
    }
}

fn of_duration(alloc: Global, op: Operator, n: i64) -> Result<Result<Value, CelError>, AllocError>
    requires { operands_of (row op) ≡ operands.One Lapse }
    ensures { IfOk result (λ x. at_one (row op) (Some (Ok (value.Duration n))) ≡ makes (Some x) 1) }
{
    match op {
        Operator::StringOfDuration => duration_shown(alloc, n),
        Operator::HoursIn => Ok(Ok(Value::Int(hours(n)))),
        Operator::MinutesIn => Ok(Ok(Value::Int(minutes(n)))),
        Operator::SecondsIn => Ok(Ok(Value::Int(seconds(n)))),
        _ => unreachable!(),
    }
}

fn duration_shown(alloc: Global, n: i64) -> Result<Result<Value, CelError>, AllocError>
    ensures { IfOk result (λ x. x ≡ string_of_duration n) }
{
    Ok(Ok(Value::Text(printed_duration(alloc, n)?)))
}

pub fn on_timestamp_and_duration(
    op: Operator,
    x: Result<&Value, CelError>,
    y: Result<&Value, CelError>,
) -> Option<Made>
    requires { operands_of (row op) ≡ operands.Two Moment Lapse }
    ensures { result ≡ counted (at_two (row op) (Some (lent x.entry)) (Some (lent y.entry))) }
{
    match both(timestamp(x), duration(y)) {
        Ok((timestamp, n)) => made(moved(op, timestamp, n), 1),
        Err(made) => made,
    }
}

fn moved(op: Operator, timestamp: Timestamp, n: i64) -> Result<Value, CelError>
    requires { operands_of (row op) ≡ operands.Two Moment Lapse }
    ensures { at_two (row op) (Some (Ok (value.Timestamp timestamp))) (Some (Ok (value.Duration n))) ≡ makes (Some result) 1 }
{
    match op {
        Operator::AddToTimestamp => instant(timestamp.plus(n)),
        Operator::SubtractFromTimestamp => instant(timestamp.minus(n)),
        _ => unreachable!(),
    }
}

pub fn on_duration_and_timestamp(
    x: Result<&Value, CelError>,
    y: Result<&Value, CelError>,
) -> Option<Made>
    ensures { result ≡ counted (at_two (row Operator.AddTimestamp) (Some (lent x.entry)) (Some (lent y.entry))) }
{
    match both(duration(x), timestamp(y)) {
        Ok((n, timestamp)) => made(instant(timestamp.plus(n)), 1),
        Err(made) => made,
    }
}

pub fn on_timestamps(x: Result<&Value, CelError>, y: Result<&Value, CelError>) -> Option<Made>
    ensures { result ≡ counted (at_two (row Operator.SubtractTimestamps) (Some (lent x.entry)) (Some (lent y.entry))) }
{
    match both(timestamp(x), timestamp(y)) {
        Ok((left, right)) => made(length(left.since(right)), 1),
        Err(made) => made,
    }
}

pub fn on_durations(
    op: Operator,
    x: Result<&Value, CelError>,
    y: Result<&Value, CelError>,
) -> Option<Made>
    requires { operands_of (row op) ≡ operands.Two Lapse Lapse }
    ensures { result ≡ counted (at_two (row op) (Some (lent x.entry)) (Some (lent y.entry))) }
{
    match both(duration(x), duration(y)) {
        Ok((m, n)) => made(of_durations(op, m, n), 1),
        Err(made) => made,
    }
}

fn of_durations(op: Operator, m: i64, n: i64) -> Result<Value, CelError>
    requires { operands_of (row op) ≡ operands.Two Lapse Lapse }
    ensures { at_two (row op) (Some (Ok (value.Duration m))) (Some (Ok (value.Duration n))) ≡ makes (Some result) 1 }
{
    match op {
        Operator::AddDurations => sum(m, n),
        Operator::SubtractDurations => difference(m, n),
        _ => unreachable!(),
    }
}

fn sum(m: i64, n: i64) -> Result<Value, CelError>
    ensures { result ≡ or_overflow value.Duration (duration_in_range (m +ℤ n)) }
{
    length(m.checked_add(n))
}

fn difference(m: i64, n: i64) -> Result<Value, CelError>
    ensures { result ≡ or_overflow value.Duration (duration_in_range (m -ℤ n)) }
{
    length(m.checked_sub(n))
}

/// An instant, or that it is out of range.
fn instant(timestamp: Option<Timestamp>) -> Result<Value, CelError>
    ensures { result ≡ or_overflow value.Timestamp timestamp }
{
    match timestamp {
        Some(timestamp) => Ok(Value::Timestamp(timestamp)),
        None => Err(CelError::Overflow),
    }
}

/// A duration, or that it is out of range.
fn length(n: Option<i64>) -> Result<Value, CelError>
    ensures { result ≡ or_overflow value.Duration n }
{
    match n {
        Some(n) => Ok(Value::Duration(n)),
        None => Err(CelError::Overflow),
    }
}
