//! Which rules may cover requests on a resource of a group.

ghost use Rattle.std.specs.Prelude.{◌≡◌};
ghost use Rattle.std.specs.List.{list_any};
ghost use Rattle.vap_policy_set.specs.Covering.{rule_is_wide, rule_may_cover, rules_are_wide, rules_may_cover};

use crate::params::names_resource;
use vap_match::{Rule, names_word};

#[tactic(auto, unfolding(crate::specs::Covering::rule_may_cover))]
fn rule_may_cover(rule: &Rule, group: &str, resource: &str) -> bool
    ensures { result ≡ rule_may_cover group.now resource.now rule.now }
{
    names_word(rule.api_groups.as_slice(), group)
        && names_resource(rule.resources.as_slice(), resource)
}

fn one_may_cover(rules: &[Rule], group: &str, resource: &str) -> bool
    ensures { result ≡ list_any (rule_may_cover group.now resource.now) rules.now }
{
    for rule in rules {
        if rule_may_cover(rule, group, resource) {
            return true;
        }
    }
    false
}

/// Whether rules may cover requests on this resource of this group.
pub fn rules_may_cover(rules: &[Rule], group: &str, resource: &str) -> bool
    ensures { result ≡ rules_may_cover group.now resource.now rules.now }
{
    match rules {
        [] => true,
        [_, ..] => one_may_cover(rules, group, resource),
    }
}

#[tactic(auto, unfolding(crate::specs::Covering::rule_is_wide))]
fn rule_is_wide(rule: &Rule) -> bool
    ensures { result ≡ rule_is_wide rule.now }
{
    names_word(rule.api_groups.as_slice(), "*") || names_resource(rule.resources.as_slice(), "*")
}

fn one_is_wide(rules: &[Rule]) -> bool
    ensures { result ≡ list_any rule_is_wide rules.now }
{
    for rule in rules {
        if rule_is_wide(rule) {
            return true;
        }
    }
    false
}

/// Whether rules may cover more than the places that they name.
pub fn rules_are_wide(rules: &[Rule]) -> bool
    ensures { result ≡ rules_are_wide rules.now }
{
    match rules {
        [] => true,
        [_, ..] => one_is_wide(rules),
    }
}
