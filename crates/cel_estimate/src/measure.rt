//! The most of each node's charges, added up.

ghost use Rattle.std.specs.Prelude.{◌≡◌, ℕ, ◌+◌, ◌*◌, ◌≤◌, ◌<◌, ◌^◌, ◌-◌, min, List, IsTrue, MatchResult};
ghost use Rattle.cel_operators.specs.Outcomes.{Outcome, slots_fit, outside};
ghost use Rattle.cel_check.specs.Meaning.{cost_of};
ghost use Rattle.cel_value.specs.Turns.{by_turns};
ghost use Rattle.cel_estimate.specs.Estimate.{estimate_of, estimates_of, items_most, keys_most, budget};

use crate::limits::range_max;
use crate::over_budget::OverBudget;
use cel_check::{Form, Typed, TypedTree, greatest_of_one, greatest_of_two};
use cel_operators::greatest_of_key;
use cel_value::{CelType, Entry};

// The most that an expression may charge.
const BUDGET: u64 = 10_000_000;

/// The most that an expression may charge, by its types alone, or that this is more than 10,000,000. Whatever its slots hold
/// that fits them, an expression charges no more than its estimate (Kubernetes, "Resource usage by validation functions").
/// This takes no memory.
pub fn estimate(typed: &Typed) -> Result<u64, OverBudget>
    ensures exact { MatchResult result
        (λ most. (most ≡ estimate_of typed.now.tree) × (most ≤ budget))
        (λ e. (e.estimate ≡ min (estimate_of typed.now.tree) (2 ^ 64 - 1)) × (budget < estimate_of typed.now.tree)) }
    ensures bounds { (slots : List Outcome) → IsTrue (slots_fit typed.now.slots slots)
        → cost_of typed.now.tree (outside slots) ≤ estimate_of typed.now.tree }
{
    let estimate = most(typed.tree.get());
    if estimate > BUDGET {
        return Err(OverBudget { estimate });
    }
    Ok(estimate)
}

// The estimate of an expression, up to the greatest number.
#[cycle(estimating)]
fn most(tree: &TypedTree) -> u64
    ensures { result ≡ min (estimate_of tree.now) (2 ^ 64 - 1) }
{
    match &tree.form {
        Form::Literal(_) => 0,
        Form::Slot(_) | Form::Local(_) => 1,
        Form::Unary(operator, operand) => {
            let greatest = greatest_of_one(*operator, &operand.get().cel_type);
            most(operand.get()).saturating_add(greatest)
        }
        Form::Binary(operator, left, right) => {
            let greatest = greatest_of_two(*operator, &left.get().cel_type, &right.get().cel_type);
            most(left.get())
                .saturating_add(most(right.get()))
                .saturating_add(greatest)
        }
        Form::And(left, right) | Form::Or(left, right) => most(left.get())
            .saturating_add(most(right.get()))
            .saturating_add(1),
        Form::Conditional(condition, yes, no) => {
            let branch = most(yes.get()).max(most(no.get()));
            most(condition.get())
                .saturating_add(1)
                .saturating_add(branch)
        }
        Form::ListOf(items) => most_of_items(items.as_slice())
            .saturating_add(1)
            .saturating_add(items.len() as u64),
        Form::MapOf(entries) => {
            let keys = most_of_keys(entries.as_slice());
            most_of_entries(entries.as_slice()).saturating_add(keys)
        }
        Form::WithText(operator, operand, text) => {
            let greatest = operator.greatest(text.as_str(), &operand.get().cel_type);
            most(operand.get()).saturating_add(greatest)
        }
        Form::Loop(_, range, body) => {
            let items = rounds(&range.get().cel_type, most(body.get()));
            most(range.get()).saturating_add(1).saturating_add(items)
        }
        Form::MapWhere(range, predicate, transform) => {
            let bodies = most(predicate.get()).saturating_add(most(transform.get()));
            let items = rounds(&range.get().cel_type, bodies);
            most(range.get()).saturating_add(1).saturating_add(items)
        }
    }
}

#[cycle(estimating)]
fn most_of_items(items: &[TypedTree]) -> u64
    ensures { result ≡ min (estimates_of items.now) (2 ^ 64 - 1) }
{
    let mut sum: u64 = 0;
    for item in items {
        sum = sum.saturating_add(most(item));
    }
    sum
}

#[cycle(estimating)]
fn most_of_entries(entries: &[Entry<TypedTree>]) -> u64
    ensures { result ≡ min (estimates_of (by_turns entries.now)) (2 ^ 64 - 1) }
{
    let mut sum: u64 = 0;
    for entry in entries {
        sum = sum
            .saturating_add(most(&entry.key))
            .saturating_add(most(&entry.value));
    }
    sum
}

// The most that the keys of a map charge, with 1 for the map.
fn most_of_keys(entries: &[Entry<TypedTree>]) -> u64
    ensures { result ≡ min (keys_most entries.now) (2 ^ 64 - 1) }
{
    let mut sum: u64 = 0;
    for entry in entries {
        sum = sum.saturating_add(greatest_of_key(&entry.key.cel_type));
    }
    sum.saturating_add(1)
}

// The sum of 1 and the most of the bodies, as often as a range of a type has items at most.
fn rounds(range: &CelType, bodies: u64) -> u64
    ensures { (most : ℕ) → bodies ≡ min most (2 ^ 64 - 1) → result ≡ min (items_most range.now * (1 + most)) (2 ^ 64 - 1) }
{
    let turn = bodies.saturating_add(1);
    turn.saturating_mul(u64::from(range_max(range)))
}
