ghost use Rattle.std.specs.Prelude.{◌≡◌, Some};
ghost use Rattle.base_containers.specs.Failures.{Answers};
ghost use Rattle.cel_operators.specs.Operators.{row, code_of, operands_of, operator_of, type_of_one, type_of_two};

use crate::answer_type::{
    in_list, index_list, index_map, joined, list_sum, order, same_text, text_sum, where_both_taken,
    where_taken,
};
use crate::equality::compared;
use crate::operands::{Operands, Want};
use crate::type_rule::{TypeRule, Untyped};
use cel_value::{CelError, CelType, Value};
use std::alloc::Global;

/// An operator at one kind of operands (cel-spec, "List of Standard Definitions"). A variant's place is the number that stands
/// for it in images.
#[derive(Clone, Copy, Debug, PartialEq, Eq)]
pub enum Operator {
    Not,
    Negate,
    Add,
    AddUint,
    AddText,
    AddList,
    Subtract,
    SubtractUint,
    Multiply,
    MultiplyUint,
    Divide,
    DivideUint,
    Remainder,
    RemainderUint,
    Equal,
    NotEqual,
    Less,
    AtMost,
    Greater,
    AtLeast,
    InList,
    InMap,
    IndexList,
    IndexMap,
    SizeText,
    SizeList,
    SizeMap,
    StartsWith,
    EndsWith,
    Contains,
    LowerAscii,
    UpperAscii,
    StringOfInt,
    StringOfUint,
    StringOfText,
    IntOfInt,
    IntOfUint,
    IntOfText,
    UintOfInt,
    UintOfUint,
    UintOfText,
    SumInts,
    SumUints,
    MinInts,
    MinUints,
    MaxInts,
    MaxUints,
    Join,
    TimestampOfText,
    DurationOfText,
    AddToTimestamp,
    AddTimestamp,
    AddDurations,
    SubtractTimestamps,
    SubtractFromTimestamp,
    SubtractDurations,
    StringOfTimestamp,
    StringOfDuration,
    IntOfTimestamp,
    YearOf,
    MonthOf,
    DateOf,
    DayOfMonth,
    DayOfWeek,
    DayOfYear,
    HourOf,
    MinuteOf,
    SecondOf,
    MillisecondOf,
    HoursIn,
    MinutesIn,
    SecondsIn,
}

/// An operator that takes certain operands, and the type of its answers.
#[derive(Drop)]
pub struct Overload {
    pub operator: Operator,
    pub cel_type: CelType,
}

/// What an operator answers, and what that charges.
#[derive(Drop)]
pub struct Made {
    pub outcome: Result<Value, CelError>,
    pub charge: u64,
}

impl Operator {
    /// The number that stands for the operator in an instruction: its place among the variants, which is that in the list.
    pub fn code(&self) -> usize
        ensures number { result ≡ code_of self.now }
        ensures listed { operator_of result ≡ Some self.now }
    {
        *self as usize
    }

    /// How many operands the operator has, and what each must be.
    pub fn operands(&self) -> Operands
        ensures { result ≡ operands_of (row self.now) }
    {
        match self {
            Operator::Not => Operands::One(Want::Truth),
            Operator::Negate | Operator::StringOfInt | Operator::IntOfInt | Operator::UintOfInt =>
                Operands::One(Want::Whole),
            Operator::StringOfUint | Operator::IntOfUint | Operator::UintOfUint => Operands::One(
                Want::Natural,
            ),
            Operator::SizeText
            | Operator::LowerAscii
            | Operator::UpperAscii
            | Operator::StringOfText
            | Operator::IntOfText
            | Operator::UintOfText
            | Operator::TimestampOfText
            | Operator::DurationOfText => Operands::One(Want::Characters),
            Operator::StringOfTimestamp
            | Operator::IntOfTimestamp
            | Operator::YearOf
            | Operator::MonthOf
            | Operator::DateOf
            | Operator::DayOfMonth
            | Operator::DayOfWeek
            | Operator::DayOfYear
            | Operator::HourOf
            | Operator::MinuteOf
            | Operator::SecondOf
            | Operator::MillisecondOf => Operands::One(Want::Moment),
            Operator::StringOfDuration
            | Operator::HoursIn
            | Operator::MinutesIn
            | Operator::SecondsIn => Operands::One(Want::Lapse),
            Operator::AddToTimestamp | Operator::SubtractFromTimestamp => {
                Operands::Two(Want::Moment, Want::Lapse)
            }
            Operator::AddTimestamp => Operands::Two(Want::Lapse, Want::Moment),
            Operator::SubtractTimestamps => Operands::Two(Want::Moment, Want::Moment),
            Operator::AddDurations | Operator::SubtractDurations => {
                Operands::Two(Want::Lapse, Want::Lapse)
            }
            Operator::SizeList => Operands::One(Want::Items),
            Operator::SizeMap => Operands::One(Want::Entries),
            Operator::SumInts | Operator::MinInts | Operator::MaxInts => Operands::One(
                Want::Wholes,
            ),
            Operator::SumUints | Operator::MinUints | Operator::MaxUints => Operands::One(
                Want::Naturals,
            ),
            Operator::Add
            | Operator::Subtract
            | Operator::Multiply
            | Operator::Divide
            | Operator::Remainder => Operands::Two(Want::Whole, Want::Whole),
            Operator::AddUint
            | Operator::SubtractUint
            | Operator::MultiplyUint
            | Operator::DivideUint
            | Operator::RemainderUint => Operands::Two(Want::Natural, Want::Natural),
            Operator::Equal | Operator::NotEqual => Operands::Two(Want::Any, Want::Any),
            Operator::Less | Operator::AtMost | Operator::Greater | Operator::AtLeast =>
                Operands::Two(Want::Ordered, Want::Ordered),
            Operator::AddText | Operator::StartsWith | Operator::EndsWith | Operator::Contains =>
                Operands::Two(Want::Characters, Want::Characters),
            Operator::AddList => Operands::Two(Want::Items, Want::Items),
            Operator::InList => Operands::Two(Want::Any, Want::Items),
            Operator::InMap => Operands::Two(Want::Characters, Want::Entries),
            Operator::IndexList => Operands::Two(Want::Indexed, Want::Whole),
            Operator::IndexMap => Operands::Two(Want::Sought, Want::Characters),
            Operator::Join => Operands::Two(Want::Texts, Want::Characters),
        }
    }

    /// The type of the operator's answers at one operand of a type.
    pub fn type_of_one(&self, operand: &CelType) -> Result<CelType, TypeRule>
        ensures { result ≡ type_of_one (row self.now) operand.now }
    {
        match self {
            Operator::Not => where_taken(Want::Truth, operand, CelType::Bool),
            Operator::Negate | Operator::IntOfInt => where_taken(
                Want::Whole,
                operand,
                CelType::Int,
            ),
            Operator::UintOfInt => where_taken(Want::Whole, operand, CelType::Uint),
            Operator::StringOfInt => where_taken(Want::Whole, operand, CelType::Text { max: 20 }),
            Operator::IntOfUint => where_taken(Want::Natural, operand, CelType::Int),
            Operator::UintOfUint => where_taken(Want::Natural, operand, CelType::Uint),
            Operator::StringOfUint => {
                where_taken(Want::Natural, operand, CelType::Text { max: 20 })
            }
            Operator::SizeText | Operator::IntOfText => {
                where_taken(Want::Characters, operand, CelType::Int)
            }
            Operator::UintOfText => where_taken(Want::Characters, operand, CelType::Uint),
            Operator::TimestampOfText => {
                where_taken(Want::Characters, operand, CelType::Timestamp)
            }
            Operator::DurationOfText => where_taken(Want::Characters, operand, CelType::Duration),
            Operator::StringOfTimestamp => {
                where_taken(Want::Moment, operand, CelType::Text { max: 30 })
            }
            Operator::IntOfTimestamp
            | Operator::YearOf
            | Operator::MonthOf
            | Operator::DateOf
            | Operator::DayOfMonth
            | Operator::DayOfWeek
            | Operator::DayOfYear
            | Operator::HourOf
            | Operator::MinuteOf
            | Operator::SecondOf
            | Operator::MillisecondOf => where_taken(Want::Moment, operand, CelType::Int),
            Operator::StringOfDuration => {
                where_taken(Want::Lapse, operand, CelType::Text { max: 22 })
            }
            Operator::HoursIn | Operator::MinutesIn | Operator::SecondsIn => {
                where_taken(Want::Lapse, operand, CelType::Int)
            }
            Operator::LowerAscii | Operator::UpperAscii | Operator::StringOfText => {
                same_text(operand)
            }
            Operator::SizeList => where_taken(Want::Items, operand, CelType::Int),
            Operator::SizeMap => where_taken(Want::Entries, operand, CelType::Int),
            Operator::SumInts | Operator::MinInts | Operator::MaxInts => {
                where_taken(Want::Wholes, operand, CelType::Int)
            }
            Operator::SumUints | Operator::MinUints | Operator::MaxUints => {
                where_taken(Want::Naturals, operand, CelType::Uint)
            }
            _ => Err(TypeRule::NoOverload),
        }
    }

    /// The type of the operator's answers at two operands of types.
    pub fn type_of_two(
        &self,
        alloc: Global,
        left: &CelType,
        right: &CelType,
    ) -> Result<CelType, Untyped>
        ensures { Answers (type_of_two (row self.now) left.now right.now) result }
    {
        match self {
            Operator::Add
            | Operator::Subtract
            | Operator::Multiply
            | Operator::Divide
            | Operator::Remainder => {
                where_both_taken(Want::Whole, Want::Whole, left, right, CelType::Int)
            }
            Operator::AddUint
            | Operator::SubtractUint
            | Operator::MultiplyUint
            | Operator::DivideUint
            | Operator::RemainderUint => {
                where_both_taken(Want::Natural, Want::Natural, left, right, CelType::Uint)
            }
            Operator::Equal | Operator::NotEqual => compared(alloc, left, right),
            Operator::Less | Operator::AtMost | Operator::Greater | Operator::AtLeast => {
                order(alloc, left, right)
            }
            Operator::StartsWith | Operator::EndsWith | Operator::Contains => {
                where_both_taken(
                    Want::Characters,
                    Want::Characters,
                    left,
                    right,
                    CelType::Bool,
                )
            }
            Operator::AddText => text_sum(left, right),
            Operator::AddList => list_sum(alloc, left, right),
            Operator::InList => in_list(alloc, left, right),
            Operator::InMap => {
                where_both_taken(Want::Characters, Want::Entries, left, right, CelType::Bool)
            }
            Operator::IndexList => index_list(left, right),
            Operator::IndexMap => index_map(left, right),
            Operator::Join => joined(left, right),
            Operator::AddToTimestamp | Operator::SubtractFromTimestamp => {
                where_both_taken(Want::Moment, Want::Lapse, left, right, CelType::Timestamp)
            }
            Operator::AddTimestamp => {
                where_both_taken(Want::Lapse, Want::Moment, left, right, CelType::Timestamp)
            }
            Operator::SubtractTimestamps => {
                where_both_taken(Want::Moment, Want::Moment, left, right, CelType::Duration)
            }
            Operator::AddDurations | Operator::SubtractDurations => {
                where_both_taken(Want::Lapse, Want::Lapse, left, right, CelType::Duration)
            }
            _ => Err(Untyped::Fault(TypeRule::NoOverload)),
        }
    }

    /// The operator of a number, if there is one.
    pub fn from_code(code: usize) -> Option<Operator>
        ensures { result ≡ operator_of code }
    {
        match OPERATORS.get(code) {
            Some(operator) => Some(*operator),
            None => None,
        }
    }
}

/// The operators by their numbers, in the order of the variants.
static OPERATORS: [Operator; 72] = [
    Operator::Not,
    Operator::Negate,
    Operator::Add,
    Operator::AddUint,
    Operator::AddText,
    Operator::AddList,
    Operator::Subtract,
    Operator::SubtractUint,
    Operator::Multiply,
    Operator::MultiplyUint,
    Operator::Divide,
    Operator::DivideUint,
    Operator::Remainder,
    Operator::RemainderUint,
    Operator::Equal,
    Operator::NotEqual,
    Operator::Less,
    Operator::AtMost,
    Operator::Greater,
    Operator::AtLeast,
    Operator::InList,
    Operator::InMap,
    Operator::IndexList,
    Operator::IndexMap,
    Operator::SizeText,
    Operator::SizeList,
    Operator::SizeMap,
    Operator::StartsWith,
    Operator::EndsWith,
    Operator::Contains,
    Operator::LowerAscii,
    Operator::UpperAscii,
    Operator::StringOfInt,
    Operator::StringOfUint,
    Operator::StringOfText,
    Operator::IntOfInt,
    Operator::IntOfUint,
    Operator::IntOfText,
    Operator::UintOfInt,
    Operator::UintOfUint,
    Operator::UintOfText,
    Operator::SumInts,
    Operator::SumUints,
    Operator::MinInts,
    Operator::MinUints,
    Operator::MaxInts,
    Operator::MaxUints,
    Operator::Join,
    Operator::TimestampOfText,
    Operator::DurationOfText,
    Operator::AddToTimestamp,
    Operator::AddTimestamp,
    Operator::AddDurations,
    Operator::SubtractTimestamps,
    Operator::SubtractFromTimestamp,
    Operator::SubtractDurations,
    Operator::StringOfTimestamp,
    Operator::StringOfDuration,
    Operator::IntOfTimestamp,
    Operator::YearOf,
    Operator::MonthOf,
    Operator::DateOf,
    Operator::DayOfMonth,
    Operator::DayOfWeek,
    Operator::DayOfYear,
    Operator::HourOf,
    Operator::MinuteOf,
    Operator::SecondOf,
    Operator::MillisecondOf,
    Operator::HoursIn,
    Operator::MinutesIn,
    Operator::SecondsIn,
];
