//! The numbers, names and words of errors, faults, rules, operators and statuses.

use calls_notation::{Asked, unknown};
use cel_check::Operator;
use cel_lex::{LexFault, LexFaultKind};
use cel_value::CelError;
use cel_verify::VerifyRule;
use std::alloc::{AllocError, Global};
use vap_cli::{CheckFailure, EvalError, Status};
use vap_schema::{FitFaultKind, SchemaFault};

/// The answer to a call of names, which asks by what the code calls a thing: its number, and what is printed for it.
pub fn answer(alloc: Global, asked: &Asked) -> Result<String, AllocError> {
    match asked.call {
        "error" => error(alloc, asked.input),
        "lexical" => lexical(alloc, asked.input),
        "document" => document(alloc, asked.input),
        "schema" => schema(alloc, asked.input),
        "rule" => format!(in alloc; "{}", rule(asked.input) as u8),
        "operator" => operator(alloc, asked.input),
        "status" => format!(in alloc; "{}", status(asked.input).code()),
        "unevaluated" => format!(in alloc; "{}", unevaluated(asked.input).status().code()),
        "unchecked" => format!(in alloc; "{:?}", unchecked(asked.input).status()),
        _ => unknown(alloc),
    }
}

fn error(alloc: Global, name: &str) -> Result<String, AllocError> {
    let error = match name {
        "Overflow" => CelError::Overflow,
        "DivideByZero" => CelError::DivideByZero,
        "NoSuchKey" => CelError::NoSuchKey,
        "OutOfRange" => CelError::OutOfRange,
        "NullOperand" => CelError::NullOperand,
        "DuplicateKey" => CelError::DuplicateKey,
        "BadConversion" => CelError::BadConversion,
        "EmptyList" => CelError::EmptyList,
        _ => return unknown(alloc),
    };
    format!(in alloc; "{} {}", error as u8, error.name())
}

fn lexical(alloc: Global, name: &str) -> Result<String, AllocError> {
    let kind = match name {
        "BadChar" => LexFaultKind::BadChar,
        "Unterminated" => LexFaultKind::Unterminated,
        "BadEscape" => LexFaultKind::BadEscape,
        "IntRange" => LexFaultKind::IntRange,
        "TooLong" => LexFaultKind::TooLong,
        _ => return unknown(alloc),
    };
    format!(in alloc; "{} {}", kind as u8, LexFault { kind, place: 3 })
}

fn document(alloc: Global, name: &str) -> Result<String, AllocError> {
    let kind = match name {
        "WrongKind" => FitFaultKind::WrongKind,
        "Missing" => FitFaultKind::Missing,
        "NullHere" => FitFaultKind::NullHere,
        "OverLimit" => FitFaultKind::OverLimit,
        "IntRange" => FitFaultKind::IntRange,
        _ => return unknown(alloc),
    };
    format!(in alloc; "{} {}, {kind}", kind as u8, kind.name())
}

fn schema(alloc: Global, name: &str) -> Result<String, AllocError> {
    let fault = match name {
        "NoType" => SchemaFault::NoType,
        "BadKeyword" => SchemaFault::BadKeyword,
        "TooDeep" => SchemaFault::TooDeep,
        _ => return unknown(alloc),
    };
    format!(in alloc; "{} {}, {fault}", fault as u8, fault.name())
}

fn rule(name: &str) -> VerifyRule {
    match name {
        "Underflow" => VerifyRule::Underflow,
        "WrongKind" => VerifyRule::WrongKind,
        "BadTarget" => VerifyRule::BadTarget,
        "BadNesting" => VerifyRule::BadNesting,
        "BadConstant" => VerifyRule::BadConstant,
        "TooDeep" => VerifyRule::TooDeep,
        _ => VerifyRule::OverBudget,
    }
}

/// The operator that has a number, and the number that it has.
fn operator(alloc: Global, number: &str) -> Result<String, AllocError> {
    match Operator::from_code(number.parse::<usize>().unwrap_or(usize::MAX)) {
        Some(operator) => format!(in alloc; "{operator:?} {}", operator.code()),
        None => String::from_str(alloc, "none"),
    }
}

fn status(name: &str) -> Status {
    match name {
        "Done" => Status::Done,
        "Fault" => Status::Fault,
        "BadCommandLine" => Status::BadCommandLine,
        "Stream" => Status::Stream,
        _ => Status::OutOfMemory,
    }
}

fn unevaluated(name: &str) -> EvalError {
    match name {
        "Write" => EvalError::Write,
        _ => EvalError::OutOfMemory,
    }
}

fn unchecked(name: &str) -> CheckFailure {
    match name {
        "Read" => CheckFailure::Read,
        "Write" => CheckFailure::Write,
        _ => CheckFailure::OutOfMemory,
    }
}
