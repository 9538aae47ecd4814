ghost use Rattle.std.specs.Prelude.{◌≡◌, Ok, Err};
ghost use Rattle.cel_check.specs.Typing.{unary_overloads, binary_overloads, first_of_one, first_of_two};
ghost use Rattle.base_containers.specs.Failures.{Answers};
ghost use Rattle.cel_check.specs.Typing.{index_overloads, function_overloads, method_overloads, method_overloads_with};

use cel_operators::{Operator, Overload, TypeRule, Untyped};
use cel_value::{BinaryOperator, CelType, UnaryOperator};
use std::alloc::Global;

/// The first of these overloads that takes an operand of a type.
pub fn first_of_one(overloads: &[Operator], operand: &CelType) -> Result<Overload, TypeRule>
    ensures { result ≡ first_of_one overloads.now operand.now }
{
    for overload in overloads {
        match overload.type_of_one(operand) {
            Ok(cel_type) => {
                return Ok(Overload {
                    operator: *overload,
                    cel_type,
                });
            }
            Err(TypeRule::NoOverload) => {}
            Err(rule) => return Err(rule),
        }
    }
    Err(TypeRule::NoOverload)
}

/// The first of these overloads that takes operands of two types.
pub fn first_of_two(
    alloc: Global,
    overloads: &[Operator],
    left: &CelType,
    right: &CelType,
) -> Result<Overload, Untyped>
    ensures { Answers (first_of_two overloads.now left.now right.now) result }
{
    for overload in overloads {
        match overload.type_of_two(alloc, left, right) {
            Ok(cel_type) => {
                return Ok(Overload {
                    operator: *overload,
                    cel_type,
                });
            }
            Err(Untyped::Fault(TypeRule::NoOverload)) => {}
            Err(why) => return Err(why),
        }
    }
    Err(Untyped::Fault(TypeRule::NoOverload))
}

/// The overloads of an operator in front of one operand, in the order in which they are tried.
pub fn unary_overloads(operator: UnaryOperator) -> &'static [Operator]
    ensures { result.now ≡ unary_overloads operator }
{
    match operator {
        UnaryOperator::Not => &[Operator::Not],
        UnaryOperator::Negate => &[Operator::Negate],
    }
}

/// The overloads of an operator between two operands, likewise.
pub fn binary_overloads(operator: BinaryOperator) -> &'static [Operator]
    ensures { result.now ≡ binary_overloads operator }
{
    match operator {
        BinaryOperator::Less => &[Operator::Less],
        BinaryOperator::AtMost => &[Operator::AtMost],
        BinaryOperator::Greater => &[Operator::Greater],
        BinaryOperator::AtLeast => &[Operator::AtLeast],
        BinaryOperator::Equal => &[Operator::Equal],
        BinaryOperator::NotEqual => &[Operator::NotEqual],
        BinaryOperator::In => &[Operator::InList, Operator::InMap],
        BinaryOperator::Add => &[
            Operator::Add,
            Operator::AddUint,
            Operator::AddText,
            Operator::AddList,
            Operator::AddToTimestamp,
            Operator::AddTimestamp,
            Operator::AddDurations,
        ],
        BinaryOperator::Subtract => &[
            Operator::Subtract,
            Operator::SubtractUint,
            Operator::SubtractTimestamps,
            Operator::SubtractFromTimestamp,
            Operator::SubtractDurations,
        ],
        BinaryOperator::Multiply => &[Operator::Multiply, Operator::MultiplyUint],
        BinaryOperator::Divide => &[Operator::Divide, Operator::DivideUint],
        BinaryOperator::Remainder => &[Operator::Remainder, Operator::RemainderUint],
    }
}

/// The overloads of an index, likewise.
pub fn index_overloads() -> &'static [Operator]
    ensures { result.now ≡ index_overloads }
{
    &[Operator::IndexList, Operator::IndexMap]
}

/// The overloads of a function of one argument, by its name.
#[tactic(auto, unfolding(crate::specs::Overloads::function_overloads))]
pub fn function_overloads(name: &str) -> &'static [Operator]
    ensures { result.now ≡ function_overloads name.now }
{
    match name {
        "size" => &[Operator::SizeText, Operator::SizeList, Operator::SizeMap],
        "string" => &[
            Operator::StringOfInt,
            Operator::StringOfUint,
            Operator::StringOfText,
            Operator::StringOfTimestamp,
            Operator::StringOfDuration,
        ],
        "int" => &[
            Operator::IntOfInt,
            Operator::IntOfUint,
            Operator::IntOfText,
            Operator::IntOfTimestamp,
        ],
        "uint" => &[
            Operator::UintOfInt,
            Operator::UintOfUint,
            Operator::UintOfText,
        ],
        "timestamp" => &[Operator::TimestampOfText],
        "duration" => &[Operator::DurationOfText],
        _ => &[],
    }
}

/// The overloads of a method with no argument, by its name.
#[tactic(auto, unfolding(crate::specs::Overloads::method_overloads))]
pub fn method_overloads(name: &str) -> &'static [Operator]
    ensures { result.now ≡ method_overloads name.now }
{
    match name {
        "size" => &[Operator::SizeText, Operator::SizeList, Operator::SizeMap],
        "lowerAscii" => &[Operator::LowerAscii],
        "upperAscii" => &[Operator::UpperAscii],
        "sum" => &[Operator::SumInts, Operator::SumUints],
        "min" => &[Operator::MinInts, Operator::MinUints],
        "max" => &[Operator::MaxInts, Operator::MaxUints],
        "getFullYear" => &[Operator::YearOf],
        "getMonth" => &[Operator::MonthOf],
        "getDate" => &[Operator::DateOf],
        "getDayOfMonth" => &[Operator::DayOfMonth],
        "getDayOfWeek" => &[Operator::DayOfWeek],
        "getDayOfYear" => &[Operator::DayOfYear],
        "getHours" => &[Operator::HourOf, Operator::HoursIn],
        "getMinutes" => &[Operator::MinuteOf, Operator::MinutesIn],
        "getSeconds" => &[Operator::SecondOf, Operator::SecondsIn],
        "getMilliseconds" => &[Operator::MillisecondOf],
        _ => &[],
    }
}

/// The overloads of a method with one argument, by its name.
#[tactic(auto, unfolding(crate::specs::Overloads::method_overloads_with))]
pub fn method_overloads_with(name: &str) -> &'static [Operator]
    ensures { result.now ≡ method_overloads_with name.now }
{
    match name {
        "startsWith" => &[Operator::StartsWith],
        "endsWith" => &[Operator::EndsWith],
        "contains" => &[Operator::Contains],
        "join" => &[Operator::Join],
        _ => &[],
    }
}
