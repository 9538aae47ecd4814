use base_containers::Failed;
use std::fmt;

/// Which rule of the verifier an image breaks.
#[derive(Clone, Copy, Debug, PartialEq, Eq)]
pub enum VerifyRule {
    /// An operand or an open loop is missing.
    Underflow = 1,
    /// A type does not fit where it goes.
    WrongKind = 2,
    /// A jump goes nowhere, an instruction is not reached, END is not last, or a target is none.
    BadTarget = 3,
    /// A part of a loop is out of its place.
    BadNesting = 4,
    /// There is no such constant, slot, operator or kind of loop.
    BadConstant = 5,
    /// A list of the image is too long, or the operands or the open loops are too many.
    TooDeep = 6,
    /// A run may charge too much.
    OverBudget = 7,
}

/// Where an image breaks which rule: the number of the instruction.
#[derive(Clone, Copy, Debug, PartialEq, Eq)]
pub struct VerifyFault {
    pub rule: VerifyRule,
    pub at: usize,
}

impl fmt::Display for VerifyFault {
    fn fmt<W: fmt::Write>(&self, f: &mut fmt::Formatter<W>) -> fmt::Result {
        let VerifyFault { rule, at } = *self;
        write!(f, "{rule:?} at {at}")
    }
}

/// Why an instruction is refused.
pub type Refusal = Failed<VerifyRule>;

/// Why an image is not accepted.
pub type VerifyError = Failed<VerifyFault>;
