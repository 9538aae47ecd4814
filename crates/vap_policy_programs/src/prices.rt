//! What a policy may charge.

ghost use Rattle.std.specs.Prelude.{◌≡◌, ◌-◌, ◌^◌, min, sum_by};
ghost use Rattle.cel_expression.specs.Expressions.{estimate_at};
ghost use Rattle.vap_policy_programs.specs.Pairs.{condition_estimate, check_estimate, annotation_estimate, price_with, programs_of};
ghost use Rattle.vap_policy_programs.specs.Pairs.{within_price};

use crate::pair_fault::PairFault;
use crate::programs::{Annotation, Check, Condition, Programs};
use base_containers::Items;
use cel_expression::Compiled;

/// The most that a policy may charge for one param.
const MOST: u64 = 100_000_000;

fn price_of_conditions(conditions: &[Condition]) -> u64
    ensures { result ≡ min (sum_by condition_estimate conditions.now) (2 ^ 64 - 1) }
{
    let mut price: u64 = 0;
    for condition in conditions {
        price = price.saturating_add(condition.expression.estimate());
    }
    price
}

fn price_of_variables(variables: &[Compiled]) -> u64
    ensures { result ≡ min (sum_by estimate_at variables.now) (2 ^ 64 - 1) }
{
    let mut price: u64 = 0;
    for variable in variables {
        price = price.saturating_add(variable.estimate());
    }
    price
}

fn price_of_check(check: &Check) -> u64
    ensures { result ≡ check_estimate check.now }
{
    match &check.message_expression {
        None => check.expression.estimate(),
        Some(message) => check.expression.estimate() + message.estimate(),
    }
}

fn price_of_checks(checks: &[Check]) -> u64
    ensures { result ≡ min (sum_by check_estimate checks.now) (2 ^ 64 - 1) }
{
    let mut price: u64 = 0;
    for check in checks {
        price = price.saturating_add(price_of_check(check));
    }
    price
}

fn price_of_annotations(annotations: &[Annotation]) -> u64
    ensures { result ≡ min (sum_by annotation_estimate annotations.now) (2 ^ 64 - 1) }
{
    let mut price: u64 = 0;
    for annotation in annotations {
        price = price.saturating_add(annotation.value.estimate());
    }
    price
}

/// The most that these may charge together for one param, up to the greatest number.
fn price(
    conditions: &[Condition],
    variables: &[Compiled],
    validations: &[Check],
    annotations: &[Annotation],
) -> u64
    ensures { result ≡ min (price_with conditions.now variables.now validations.now annotations.now) (2 ^ 64 - 1) }
{
    price_of_conditions(conditions)
        .saturating_add(price_of_variables(variables))
        .saturating_add(price_of_checks(validations))
        .saturating_add(price_of_annotations(annotations))
}

/// Programs with their price, unless that is more than a policy may charge.
pub fn within_price(
    conditions: Items<Condition>,
    variables: Items<Compiled>,
    validations: Items<Check>,
    annotations: Items<Annotation>,
) -> Result<Programs, PairFault>
    ensures { result ≡ within_price (programs_of conditions variables validations annotations) }
{
    let price = price(
        conditions.as_slice(),
        variables.as_slice(),
        validations.as_slice(),
        annotations.as_slice(),
    );
    if price > MOST {
        return Err(PairFault::OverBudget);
    }
    Ok(Programs {
        conditions,
        variables,
        validations,
        annotations,
        price,
    })
}
