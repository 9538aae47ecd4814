//! What is written to standard error after a refusal or an error, for people.

use crate::answer::{Answer, Refusal};
use crate::evaluation::answer;
use cel_check::TypeRule;
use cel_expression::Refusal as TextRefusal;
use cel_lex::LexFaultKind;
use cel_parse::ParseFault;
use cel_value::CelError;
use std::alloc::{AllocError, Global};

/// The note after the answer of `eval` for an expression, if that is an error or a refusal.
pub fn note_of(alloc: Global, text: &str) -> Result<Option<String>, AllocError> {
    match answer(alloc, text)? {
        Answer::Value(_) => Ok(None),
        Answer::Error(error) => Ok(Some(format!(in alloc; "{}\n", error_words(error))?)),
        Answer::Refused(refusal) => Ok(Some(refusal_note(alloc, text, &refusal)?)),
    }
}

/// The line of an expression at which it is refused, a caret under the place, and what the refusal means.
pub fn refusal_note(alloc: Global, text: &str, refusal: &Refusal) -> Result<String, AllocError> {
    let words = refusal_words(refusal);
    match place_of(refusal) {
        Some(place) => {
            let shown = line_at(alloc, text, place)?;
            let below = blanks_to(alloc, text, place)?;
            format!(in alloc; "{}\n{}^\n{words}\n", shown.as_str(), below.as_str())
        }
        None => format!(in alloc; "{words}\n"),
    }
}

// Where the text of the expression is at fault.
fn place_of(refusal: &Refusal) -> Option<usize> {
    match refusal {
        Refusal::Text(why) => why.place(),
        Refusal::Unverified { .. } | Refusal::Pattern => None,
    }
}

// The line of a text at a place. What a terminal would obey is written as a blank.
fn line_at(alloc: Global, text: &str, place: usize) -> Result<String, AllocError> {
    let mut line = String::new(alloc);
    for (at, character) in text.char_indices() {
        if character != '\n' {
            line.push(shown(character))?;
        } else if at >= place {
            return Ok(line);
        } else {
            line = String::new(alloc);
        }
    }
    Ok(line)
}

// As many blanks as the line of a text has characters before a place; a tab stays a tab.
fn blanks_to(alloc: Global, text: &str, place: usize) -> Result<String, AllocError> {
    let mut blanks = String::new(alloc);
    for (at, character) in text.char_indices() {
        if at >= place {
            return Ok(blanks);
        }
        match character {
            '\n' => blanks = String::new(alloc),
            '\t' => blanks.push('\t')?,
            _ => blanks.push(' ')?,
        }
    }
    Ok(blanks)
}

fn shown(character: char) -> char {
    if character < ' ' && character != '\t' || character == '\u{7f}' {
        ' '
    } else {
        character
    }
}

fn refusal_words(refusal: &Refusal) -> &'static str {
    match refusal {
        Refusal::Text(TextRefusal::Parse(fault)) => parse_words(*fault),
        Refusal::Text(TextRefusal::Type(fault)) => type_words(fault.rule),
        Refusal::Text(TextRefusal::OverBudget(_)) => {
            "It may charge more than 10000000: set maxItems, maxProperties or maxLength in the schema, or nest fewer loops."
        }
        Refusal::Unverified { .. } => "The verifier refuses the code of this expression.",
        Refusal::Pattern => "The pattern of `matches` takes too much room to be searched for.",
    }
}

fn parse_words(fault: ParseFault) -> &'static str {
    match fault {
        ParseFault::Lex(fault) => lex_words(fault.kind),
        ParseFault::Unexpected { .. } => "No expression goes on like this.",
        ParseFault::BadMacro { .. } => {
            "A macro wants the name of a variable first, and as many arguments as it has; `has` wants a field."
        }
        ParseFault::TooDeep => "The expression is nested more than 100 deep.",
    }
}

fn lex_words(kind: LexFaultKind) -> &'static str {
    match kind {
        LexFaultKind::BadChar => "No token begins with this character.",
        LexFaultKind::Unterminated => "This text is not closed.",
        LexFaultKind::BadEscape => "This is no escape, or its code is no character.",
        LexFaultKind::IntRange => "This number is out of range.",
        LexFaultKind::TooLong => "The expression is longer than 16384 bytes.",
    }
}

fn type_words(rule: TypeRule) -> &'static str {
    match rule {
        TypeRule::UnknownName => "There is no variable of this name.",
        TypeRule::NoField => "The schema has no field of this name here.",
        TypeRule::NoOverload => {
            "No operator or function of this name takes operands of these types."
        }
        TypeRule::Mixed => "These branches or items have no type in common.",
        TypeRule::OpaqueUse => {
            "The schema does not say what stands here, so that it is only compared with null."
        }
        TypeRule::PatternNotLiteral => "The pattern of `matches` has to be a literal text.",
        TypeRule::BadPattern => "This is no pattern.",
        TypeRule::TooLarge => {
            "The expression is nested more than 100 deep, has more than 16384 parts, or answers with something too long."
        }
    }
}

pub fn error_words(error: CelError) -> &'static str {
    match error {
        CelError::Overflow => "A result is out of the range of its type.",
        CelError::DivideByZero => "The divisor is 0.",
        CelError::NoSuchKey => "A field or key that is read is not there: ask with `has` first.",
        CelError::OutOfRange => "An index is outside of its list.",
        CelError::NullOperand => "An operand is null.",
        CelError::DuplicateKey => "A key comes twice in a map.",
        CelError::BadConversion => "A text does not spell the number or the time that is asked.",
        CelError::EmptyList => "The least or greatest item of no items is asked.",
    }
}
