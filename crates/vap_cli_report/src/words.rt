//! What a fault means, for people.

use crate::cause::Cause;
use crate::field::Field;
use cel_expression::Refusal as TextRefusal;
use std::alloc::{AllocError, Global};
use vap_cli::{Refusal, refusal_note};
use vap_policy_programs::PairFault;

/// Whether what is wrong is no refusal of the expression by itself: it is of a type that may not be there, or its code is not accepted.
fn is_misplaced(refusal: TextRefusal, cause: &Cause) -> bool {
    match cause.own {
        Some(own) => own != refusal,
        None => true,
    }
}

fn misplaced_words(field: Field) -> &'static str {
    match field {
        Field::Condition(_) => "A match condition has to be a truth value.",
        Field::Validation(_) => "A validation has to be a truth value.",
        Field::Message(_) => "A message has to be a text.",
        Field::Annotation(_) => "The value of an annotation has to be a text or null.",
        Field::Variable(_) | Field::ParamKind | Field::Spec => {
            "The code of this expression is not accepted."
        }
    }
}

/// The last line of a note, which is its sentence.
fn sentence_of(note: &str) -> &str {
    let text = note.trim_end();
    match text.rsplit_once('\n') {
        Some((_, last)) => last,
        None => text,
    }
}

/// The text of the expression at fault, empty if there is none.
pub fn text_of(cause: &Cause) -> &str {
    match &cause.text {
        Some(text) => text.as_str(),
        None => "",
    }
}

/// What a fault means: one sentence.
pub fn words_of(alloc: Global, fault: PairFault, cause: &Cause) -> Result<String, AllocError> {
    match fault {
        PairFault::UnknownParamKind => {
            String::from_str(alloc, "The kind of its params is not known.")
        }
        PairFault::OverBudget => {
            String::from_str(
                alloc,
                "Its expressions may charge more than 100000000 together: set maxItems, maxProperties or maxLength in the schema.",
            )
        }
        PairFault::Expression(refusal) => {
            if is_misplaced(refusal, cause) {
                return String::from_str(alloc, misplaced_words(cause.field));
            }
            let note = refusal_note(alloc, "", &Refusal::Text(refusal))?;
            String::from_str(alloc, sentence_of(note.as_str()))
        }
    }
}
