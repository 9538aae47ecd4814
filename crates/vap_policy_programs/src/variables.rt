//! Variables, compiled: each sees those before it.

ghost use Rattle.std.specs.Prelude.{◌≡◌, ℕ, [], IfOk, IsErrOf};
ghost use Rattle.base_containers.specs.declared.failed.Failed.TheVariants.{Fault};
ghost use Rattle.cel_expression.specs.declared.refusal.CompileFault.TheVariants.{Unverified};
ghost use Rattle.vap_policy_programs.specs.Expressions.{of_variables, IsOneUnverified};
ghost use Rattle.vap_policy_programs.specs.Pairs.{scoped_from};
ghost use Rattle.vap_policy_programs.specs.Defined.{scoped};

use crate::names::{NameTypes, with_variable};
use crate::pair_fault::PairFault;
use crate::wanted::{Choice, Wanted, compile_as};
use base_containers::Items;
use cel_expression::{CompileError, Compiled};
use std::alloc::Global;
use vap_read::NamedExpression;

/// Variables, and the names that there are after them.
#[derive(Drop)]
pub struct Defined {
    pub variables: Items<Compiled>,
    pub names: NameTypes,
}

pub fn compile_variables(
    alloc: Global,
    choice: &Choice,
    first: &NameTypes,
    variables: &[NamedExpression],
) -> Result<Result<Defined, PairFault>, CompileError>
    ensures compiled { IfOk result (λ d. scoped d ≡ scoped_from choice.now first.now [] variables.now) }
    ensures unverified { (at : ℕ) → IsErrOf result (Fault (Unverified at))
        → IsOneUnverified at (of_variables choice.now first.now variables.now) }
{
    let mut made = Vec::new(alloc);
    let mut names = first.share()?;
    for variable in variables {
        match compile_as(
            alloc,
            choice,
            &names,
            &variable.expression,
            Wanted::Whatever,
        )? {
            Ok(compiled) => {
                names = with_variable(alloc, &names, &variable.name, &compiled)?;
                made.push(compiled)?;
            }
            Err(fault) => return Ok(Err(fault)),
        }
    }
    Ok(Ok(Defined {
        variables: Items::from_vec(made),
        names,
    }))
}
