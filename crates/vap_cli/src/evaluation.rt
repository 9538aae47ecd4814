//! From the text of an expression to what it results in.

ghost use Rattle.std.specs.Prelude.{◌≡◌, ℕ, List, [], Err, IfOk};
ghost use Rattle.cel_operators.specs.Outcomes.{Outcome};
ghost use Rattle.cel_expression.specs.Expressions.{compiled_of};
ghost use Rattle.cel_expression.specs.declared.refusal.Refusal.{Refusal as TextRefusal};
ghost use Rattle.vap_cli.specs.Evaluation.{Choice, ComesTo, IsAnswer, IsAnswerBy, IsAnswerOf, source_of};

use crate::answer::{Answer, Refusal};
use base_containers::{Items, Keyed, Shared, Text};
use cel_expression::{CompileError, CompileFault, Compiled, ask_patterns, choice_of, compile_text};
use cel_machine::evaluation::run;
use cel_machine::{Matchers, RunError, RunFault, Slots};
use cel_operators::Patterns;
use cel_value::{CelError, CelType, Value};
use std::alloc::{AllocError, Global};

/// By one choice of texts that are no patterns, a text evaluates to at most one value or error, and then it is not refused.
pub fn one_outcome()
    ensures outcomes { (choice : Choice) (text : List ℕ) (x y : Outcome) → ComesTo choice text x → ComesTo choice text y → x ≡ y }
    ensures refused { (choice : Choice) (text : List ℕ) (x : Outcome) (why : TextRefusal)
        → ComesTo choice text x → compiled_of (source_of choice text) ≡ Err why → ⊥ }
{}

/// The choice for an expression: the texts of its patterns that `regex` refuses.
pub fn choice_for(alloc: Global, text: &str) -> Result<Shared<Items<Text>>, AllocError> {
    let mut patterns = Patterns::new(alloc);
    ask_patterns(alloc, text, &mut patterns)?;
    choice_of(alloc, &patterns)
}

/// What an expression results in if no name is in scope.
pub fn answer(alloc: Global, text: &str) -> Result<Answer, AllocError>
    ensures { IfOk result (IsAnswer text.now) }
{
    let choice = choice_for(alloc, text)?;
    let names = Shared::new(alloc, Items::new(alloc))?;
    let text = Text::from_str(alloc, text)?;
    answer_by(alloc, &choice, &names, &text)
}

// The same by a choice.
fn answer_by(
    alloc: Global,
    choice: &Shared<Items<Text>>,
    names: &Shared<Items<Keyed<CelType>>>,
    text: &Text,
) -> Result<Answer, AllocError>
    requires { names.now ≡ [] }
    ensures { IfOk result (IsAnswerBy choice.now text.now) }
{
    match compile_text(alloc, choice, names, text) {
        Ok(Ok(compiled)) => answer_of(alloc, &compiled),
        Ok(Err(why)) => Ok(Answer::Refused(Refusal::Text(why))),
        Err(CompileError::Fault(CompileFault::Unverified { at })) => {
            Ok(Answer::Refused(Refusal::Unverified { at }))
        }
        Err(CompileError::OutOfMemory) => Err(AllocError),
    }
}

// What an expression that may be run results in.
fn answer_of(alloc: Global, compiled: &Compiled) -> Result<Answer, AllocError>
    requires { compiled.now.names ≡ [] }
    ensures { IfOk result (IsAnswerOf compiled.now) }
{
    let lent: Vec<Result<&Value, CelError>> = Vec::new(alloc);
    let made: Vec<Result<Value, CelError>> = Vec::new(alloc);
    let slots = Slots::new(lent.as_slice(), made.as_slice());
    let mut matchers = Matchers::new(alloc);
    match run(alloc, compiled, &slots, &mut matchers) {
        Ok(ran) => match ran.outcome {
            Ok(value) => Ok(Answer::Value(value)),
            Err(error) => Ok(Answer::Error(error)),
        },
        Err(RunError::Fault(RunFault::Pattern)) => Ok(Answer::Refused(Refusal::Pattern)),
        Err(RunError::OutOfMemory) => Err(AllocError),
    }
}
