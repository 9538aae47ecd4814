ghost use Rattle.std.specs.Prelude.{◌≡◌, ◌≤◌, ℕ, IfOk, IsErrOf};
ghost use Rattle.base_containers.specs.declared.failed.Failed.TheVariants.{Fault};
ghost use Rattle.cel_check.specs.Typing.{types_in};
ghost use Rattle.cel_expression.specs.Compiled.{IsCompiled};
ghost use Rattle.cel_expression.specs.Correct.{Computes, Preserves};
ghost use Rattle.cel_estimate.specs.Estimate.{budget};
ghost use Rattle.cel_expression.specs.Expressions.{accepted_of, compiled_of, estimate_at, type_at};
ghost use Rattle.cel_expression.specs.Faithful.{IsFaithful};
ghost use Rattle.cel_expression.specs.Faulty.{IsFaulty, IsUnverified};
ghost use Rattle.cel_expression.specs.Images.{IsImageOf};
ghost use Rattle.cel_expression.specs.Stages.{IsRated};
ghost use Rattle.cel_expression.specs.declared.refusal.CompileFault.TheVariants.{Unverified};

use crate::refusal::{CompileError, Refusal};
use crate::stages::{Accepted, program_of, typed_text};
use base_containers::{Items, Keyed, Shared, Text};
use cel_value::CelType;
use cel_verify::Program;
use std::alloc::{AllocError, Global};
use std::marker::Model;

/// An expression that may be run. Contracts see the text, the names in scope with their types, and the choice of texts that
/// are taken as no patterns.
pub struct Compiled {
    choice: Shared<Items<Text>>,
    names: Shared<Items<Keyed<CelType>>>,
    text: Text,
    cel_type: Shared<CelType>,
    estimate: u64,
    program: Shared<Program>,
}

impl Drop for Compiled {
    fn drop(self) {
        let Compiled {
            choice: _choice,
            names: _names,
            text: _text,
            cel_type: _cel_type,
            estimate: _estimate,
            program: _program,
        } = self;
    }
}

impl Model for Compiled {
    ghost use Rattle.std.specs.Coded.{codes};
    ghost use Rattle.cel_value.specs.contracts.cel_type.CelType as of_types;
    ghost use Rattle.cel_expression.specs.Source.{Source};

    ghost Value = { Source };

    ghost coded = { Prim.hlevel (codes, of_types.the_row.coded) };

    ghost use Rattle.cel_expression.specs.Holds.{source_of, IsCompiled};

    ghost view = { source_of };

    ghost invariant = { IsCompiled };
}

/// The expression of a text in a scope of names, by a choice of texts that are taken as no patterns; or why it is refused:
/// the fault of the text, else the first fault of its types, else that it may charge more than 10,000,000.
#[tactic(auto, unfolding(crate::specs::Expressions::compiled_of))]
pub fn compile_text(
    alloc: Global,
    choice: &Shared<Items<Text>>,
    names: &Shared<Items<Keyed<CelType>>>,
    text: &Text,
) -> Result<Result<Compiled, Refusal>, CompileError>
    ensures compiled { IfOk result (λ c. c ≡ compiled_of (record { choice = choice.now; names = names.now; text = text.now })) }
    ensures itself { IfOk result (λ c. IfOk c (λ s. s ≡ record { choice = choice.now; names = names.now; text = text.now })) }
    ensures unverified { (at : ℕ) → IsErrOf result (Fault (Unverified at))
        → IsUnverified (record { choice = choice.now; names = names.now; text = text.now }) at }
{
    match typed_text(
        alloc,
        choice.get().as_slice(),
        names.get().as_slice(),
        text.as_str(),
    )? {
        Err(refusal) => Ok(Err(refusal)),
        Ok(accepted) => match compiled_by(alloc, choice, names, text, &accepted) {
            Ok(compiled) => Ok(Ok(compiled)),
            Err(error) => Err(error),
        },
    }
}

// An accepted expression with its program.
fn compiled_by(
    alloc: Global,
    choice: &Shared<Items<Text>>,
    names: &Shared<Items<Keyed<CelType>>>,
    text: &Text,
    accepted: &Accepted,
) -> Result<Compiled, CompileError>
    requires { IsRated (types_in names.now)
        (accepted_of (record { choice = choice.now; names = names.now; text = text.now })) accepted.now }
    ensures compiled { IfOk result (λ c. c ≡ record { choice = choice.now; names = names.now; text = text.now }) }
    ensures unverified { (at : ℕ) → IsErrOf result (Fault (Unverified at))
        → IsFaulty accepted.now.typed.tree accepted.now.typed.slots at }
{
    match program_of(alloc, &accepted.typed) {
        Ok(program) => Ok(compiled_with(alloc, choice, names, text, accepted, program)?),
        Err(error) => Err(error),
    }
}

// What holds an expression that may be run.
fn compiled_with(
    alloc: Global,
    choice: &Shared<Items<Text>>,
    names: &Shared<Items<Keyed<CelType>>>,
    text: &Text,
    accepted: &Accepted,
    program: Program,
) -> Result<Compiled, AllocError>
    requires rated { IsRated (types_in names.now)
        (accepted_of (record { choice = choice.now; names = names.now; text = text.now })) accepted.now }
    requires computes { Computes program accepted.now.typed.tree }
    requires preserves { Preserves accepted.now.typed.slots accepted.now.typed.tree }
    requires slots { program.slots ≡ accepted.now.typed.slots }
    requires image { IsCompiled program accepted.now.typed.tree accepted.now.typed.slots }
    ensures { IfOk result (λ c. c ≡ record { choice = choice.now; names = names.now; text = text.now }) }
{
    let program = Shared::new(alloc, program)?;
    let cel_type = Shared::new(alloc, accepted.typed.tree.get().cel_type.copy()?)?;
    Ok(Compiled {
        choice: choice.share()?,
        names: names.share()?,
        text: text.copy()?,
        cel_type,
        estimate: accepted.estimate,
        program,
    })
}

impl Compiled {
    /// The type of its values.
    #[tactic(auto, unfolding(crate::specs::Expressions::type_at))]
    pub fn cel_type(&self) -> &CelType
        ensures { result.now ≡ type_at self.now }
    {
        self.cel_type.get()
    }

    /// The most that a run charges.
    #[tactic(auto, unfolding(crate::specs::Expressions::estimate_at))]
    pub fn estimate(&self) -> u64
        ensures exact { result ≡ estimate_at self.now }
        ensures within { result ≤ budget }
    {
        self.estimate
    }

    pub fn text(&self) -> &Text
        ensures { result.now ≡ self.now.text }
    {
        &self.text
    }

    /// The program, which does what the text says.
    pub fn program(&self) -> &Program
        ensures slots { result.now.slots ≡ types_in self.now.names }
        ensures image { IsImageOf self.now result.now }
        ensures faithful { IsFaithful self.now result.now }
    {
        self.program.get()
    }
}
