ghost use Rattle.std.specs.Prelude.{◌≡◌, IfOk, Some};
ghost use Rattle.cel_operators.specs.Operators.{row, at_one, at_two};
ghost use Rattle.cel_operators_applied.specs.Counted.{counted};
ghost use Rattle.cel_operators_applied.specs.Lent.{lent};

use crate::aggregates::{join, on_naturals, on_wholes};
use crate::comparisons::{equality, order};
use crate::lists::{
    in_list, in_map, item_of_list, lists_in_a_row, size_list, size_map, value_of_map,
};
use crate::numbers::{on_int, on_ints, on_truth, on_uint, on_uints};
use crate::texts::{on_text, on_texts};
use crate::times::{
    on_duration, on_duration_and_timestamp, on_durations, on_timestamp, on_timestamp_and_duration,
    on_timestamps,
};
use cel_operators::{Made, Operands, Operator, Want};
use cel_value::{CelError, Value};
use std::alloc::{AllocError, Global};

/// What an operator makes of one operand; nothing if it takes another count or another kind.
pub fn on_one(
    alloc: Global,
    op: Operator,
    x: Result<&Value, CelError>,
) -> Result<Option<Made>, AllocError>
    ensures { IfOk result (λ made. made ≡ counted (at_one (row op) (Some (lent x.entry)))) }
{
    match op {
        Operator::Not => Ok(on_truth(x)),
        Operator::Negate | Operator::StringOfInt | Operator::IntOfInt | Operator::UintOfInt =>
            on_int(alloc, op, x),
        Operator::StringOfUint | Operator::IntOfUint | Operator::UintOfUint => on_uint(
            alloc, op, x,
        ),
        Operator::SizeText
        | Operator::LowerAscii
        | Operator::UpperAscii
        | Operator::StringOfText
        | Operator::IntOfText
        | Operator::UintOfText
        | Operator::TimestampOfText
        | Operator::DurationOfText => on_text(alloc, op, x),
        Operator::StringOfTimestamp
        | Operator::IntOfTimestamp
        | Operator::YearOf
        | Operator::MonthOf
        | Operator::DateOf
        | Operator::DayOfMonth
        | Operator::DayOfWeek
        | Operator::DayOfYear
        | Operator::HourOf
        | Operator::MinuteOf
        | Operator::SecondOf
        | Operator::MillisecondOf => on_timestamp(alloc, op, x),
        Operator::StringOfDuration
        | Operator::HoursIn
        | Operator::MinutesIn
        | Operator::SecondsIn => on_duration(alloc, op, x),
        Operator::SizeList => Ok(size_list(x)),
        Operator::SizeMap => Ok(size_map(x)),
        Operator::SumInts | Operator::MinInts | Operator::MaxInts => Ok(on_wholes(op, x)),
        Operator::SumUints | Operator::MinUints | Operator::MaxUints => Ok(on_naturals(op, x)),
        _ => Ok(None),
    }
}

/// What an operator makes of two operands; nothing if it takes another count or other kinds.
pub fn on_two(
    alloc: Global,
    op: Operator,
    x: Result<&Value, CelError>,
    y: Result<&Value, CelError>,
) -> Result<Option<Made>, AllocError>
    ensures { IfOk result (λ made. made ≡ counted (at_two (row op) (Some (lent x.entry)) (Some (lent y.entry)))) }
{
    // One place for all that is made without memory: each place of its own would be set to zero at every call.
    let made = match op {
        Operator::Add
        | Operator::Subtract
        | Operator::Multiply
        | Operator::Divide
        | Operator::Remainder => on_ints(op, x, y),
        Operator::AddUint
        | Operator::SubtractUint
        | Operator::MultiplyUint
        | Operator::DivideUint
        | Operator::RemainderUint => on_uints(op, x, y),
        Operator::Equal | Operator::NotEqual => equality(op, x, y),
        Operator::Less | Operator::AtMost | Operator::Greater | Operator::AtLeast => order(
            op, x, y,
        ),
        Operator::AddText | Operator::StartsWith | Operator::EndsWith | Operator::Contains =>
            return on_texts(alloc, op, x, y),
        Operator::AddList => return lists_in_a_row(alloc, x, y),
        Operator::InList => in_list(x, y),
        Operator::InMap => in_map(x, y),
        Operator::IndexList => return item_of_list(alloc, x, y),
        Operator::IndexMap => return value_of_map(alloc, x, y),
        Operator::Join => return join(alloc, x, y),
        Operator::AddToTimestamp | Operator::SubtractFromTimestamp => {
            on_timestamp_and_duration(op, x, y)
        }
        Operator::AddTimestamp => on_duration_and_timestamp(x, y),
        Operator::SubtractTimestamps => on_timestamps(x, y),
        Operator::AddDurations | Operator::SubtractDurations => on_durations(op, x, y),
        _ => None,
    };
    Ok(made)
}
