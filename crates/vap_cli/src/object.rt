//! What the object of a file results in.

ghost use Rattle.std.specs.Prelude.{◌≡◌, ◌∷◌, [], true, Ok, IfOk};
ghost use Rattle.cel_check.specs.Typing.{types_in};
ghost use Rattle.cel_operators.specs.Outcomes.{slots_fit};
ghost use Rattle.serde_json.specs.View.{view};
ghost use Rattle.vap_cli.specs.Checks.{IsJudged, IsRun, names_over};

use crate::judgement::Judgement;
use crate::made::Made;
use base_containers::Part;
use cel_expression::Compiled;
use cel_machine::evaluation::run;
use cel_machine::{Matchers, RunError, RunFault, Slots};
use cel_value::{CelError, Value};
use serde_json::Value as Json;
use std::alloc::{AllocError, Global};
use vap_schema::{FitError, fit};

/// What an object results in.
pub fn judged(alloc: Global, made: &Made, document: &Json) -> Result<Judgement, AllocError>
    requires { made.now.compiled.names ≡ names_over made.now.schema }
    ensures { IfOk result (IsJudged made.now (view document.now)) }
{
    match fit(
        alloc,
        &Part::of_tree(document),
        made.schema.object_type(),
        "object",
    ) {
        Ok(value) => run_at(alloc, &made.compiled, &value),
        Err(FitError::Fault(fault)) => Ok(Judgement::Misfit(fault)),
        Err(FitError::OutOfMemory) => Err(AllocError),
    }
}

// What an expression results in if its one name holds this value.
fn run_at(alloc: Global, compiled: &Compiled, value: &Value) -> Result<Judgement, AllocError>
    requires { slots_fit (types_in compiled.now.names) (Ok value.now ∷ []) ≡ true }
    ensures { IfOk result (IsRun compiled.now value.now) }
{
    let mut lent: Vec<Result<&Value, CelError>> = Vec::new(alloc);
    lent.push(Ok(value))?;
    let made: Vec<Result<Value, CelError>> = Vec::new(alloc);
    let slots = Slots::new(lent.as_slice(), made.as_slice());
    let mut matchers = Matchers::new(alloc);
    match run(alloc, compiled, &slots, &mut matchers) {
        Ok(ran) => Ok(Judgement::Ran(ran)),
        Err(RunError::Fault(RunFault::Pattern)) => Ok(Judgement::Pattern),
        Err(RunError::OutOfMemory) => Err(AllocError),
    }
}
