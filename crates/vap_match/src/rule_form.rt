//! From a document to rules.

ghost use Rattle.std.specs.Prelude.{◌≡◌, ◌&&◌, IfOk, IfErr, IfSome, codes, option_map, option_and_then};
ghost use Rattle.serde_json.specs.Find.{get};
ghost use Rattle.serde_json.specs.View.{view, items_view};
ghost use Rattle.base_containers.specs.Failures.{Answers, IfFault};
ghost use Rattle.vap_match.specs.Forms.{there_and, absent_or, all_items, has_items, is_list_of, is_some_of};
ghost use Rattle.vap_match.specs.Parts.{each_item};
ghost use Rattle.vap_match.specs.SelectorForm.{is_selector, selector_of};
ghost use Rattle.vap_match.specs.RuleForm.{operation_word, scope_word, operation_at, scope_at, is_operation, is_policy};
ghost use Rattle.vap_match.specs.RuleForm.{has_selectors, has_scope, has_scopes, is_rule, has_rules, least_fault};
ghost use Rattle.vap_match.specs.RuleForm.{IsLeast, operation_of, scope_of, rule_of, rules_of, rules_under, read_rules};

use crate::forms::{has_items, has_texts, may_have_texts};
use crate::match_fault::{MatchError, MatchFault};
use crate::parts::{items_in, texts_in};
use crate::rules::{Operation, Rule, Rules, Scope};
use crate::selector::Selector;
use crate::selector_form::{is_selector, selector_of};
use base_containers::Items;
use serde_json::Value as Json;
use std::alloc::{AllocError, Global};

impl Rules {
    /// The rules that a document is, or the least of its faults.
    pub fn from_json(alloc: Global, json: &Json) -> Result<Rules, MatchError>
        ensures exact { Answers (read_rules (view json.now)) result }
        ensures least { IfErr result (IfFault (IsLeast (view json.now))) }
    {
        match fault_of(json) {
            Some(fault) => Err(MatchError::Fault(fault)),
            None => Ok(rules_of(alloc, json)?),
        }
    }
}

/// The least fault of the rules under a member, if they are there and have one.
pub fn fault_under(json: &Json, name: &str) -> Option<MatchFault>
    ensures { result ≡ option_and_then least_fault (get name.now (view json.now)) }
{
    match json.get(name) {
        Some(found) => fault_of(found),
        None => None,
    }
}

/// The rules under a member, whatever its form; if it is absent, rules that say nothing.
pub fn rules_under(alloc: Global, json: &Json, name: &str) -> Result<Rules, AllocError>
    ensures { IfOk result (λ rules. rules ≡ rules_under (get name.now (view json.now))) }
{
    match json.get(name) {
        Some(found) => Ok(rules_of(alloc, found)?),
        None => Ok(Rules {
            resource_rules: Items::new(alloc),
            exclude_resource_rules: Items::new(alloc),
            namespace_selector: None,
            object_selector: None,
        }),
    }
}

fn fault_of(json: &Json) -> Option<MatchFault>
    ensures exact { result ≡ least_fault (view json.now) }
    ensures least { IfSome result (λ fault. IsLeast (view json.now) fault) }
{
    if !has_selectors(json) {
        Some(MatchFault::BadOperator)
    } else if !has_scopes(json) {
        Some(MatchFault::BadScope)
    } else if !has_rules(json) {
        Some(MatchFault::EmptyRule)
    } else {
        None
    }
}

// ---- the form

fn operation_word(word: &str) -> Option<Operation>
    ensures { result ≡ operation_word word.now }
{
    if word == "CREATE" {
        Some(Operation::Create)
    } else if word == "UPDATE" {
        Some(Operation::Update)
    } else if word == "DELETE" {
        Some(Operation::Delete)
    } else if word == "CONNECT" {
        Some(Operation::Connect)
    } else if word == "*" {
        Some(Operation::Any)
    } else {
        None
    }
}

fn scope_word(word: &str) -> Option<Scope>
    ensures { result ≡ scope_word word.now }
{
    if word == "*" {
        Some(Scope::Any)
    } else if word == "Cluster" {
        Some(Scope::Cluster)
    } else if word == "Namespaced" {
        Some(Scope::Namespaced)
    } else {
        None
    }
}

fn operation_at(json: &Json) -> Option<Operation>
    ensures { result ≡ operation_at (view json.now) }
{
    match json.as_str() {
        Some(word) => operation_word(word),
        None => None,
    }
}

fn scope_at(json: &Json) -> Option<Scope>
    ensures { result ≡ scope_at (view json.now) }
{
    match json.as_str() {
        Some(word) => scope_word(word),
        None => None,
    }
}

fn may_have_selector(json: &Json, name: &str) -> bool
    ensures { result ≡ absent_or is_selector (get name.now (view json.now)) }
{
    match json.get(name) {
        Some(found) => is_selector(found),
        None => true,
    }
}

fn has_selectors(json: &Json) -> bool
    ensures { result ≡ has_selectors (view json.now) }
{
    may_have_selector(json, "namespaceSelector") && may_have_selector(json, "objectSelector")
}

fn has_scope(json: &Json) -> bool
    ensures { result ≡ has_scope (view json.now) }
{
    match json.get("scope") {
        Some(found) => scope_at(found).is_some(),
        None => true,
    }
}

fn have_scopes(items: &[Json]) -> bool
    ensures { result ≡ all_items has_scope (items_view items.now) }
{
    for item in items {
        if !has_scope(item) {
            return false;
        }
    }
    true
}

fn has_scopes(json: &Json) -> bool
    ensures { result ≡ has_scopes (view json.now) }
{
    have_scopes(items_in(json, "resourceRules"))
        && have_scopes(items_in(json, "excludeResourceRules"))
}

fn are_operations(items: &[Json]) -> bool
    ensures { result ≡ all_items is_operation (items_view items.now) }
{
    for item in items {
        if operation_at(item).is_none() {
            return false;
        }
    }
    true
}

fn has_operations(json: &Json) -> bool
    ensures { result ≡ there_and (is_some_of is_operation) (get (codes "operations") (view json.now)) }
{
    match json.get("operations") {
        Some(Json::Array(items)) => are_some_operations(items.as_slice()),
        _ => false,
    }
}

fn are_some_operations(items: &[Json]) -> bool
    ensures { result ≡ (has_items (items_view items.now) && all_items is_operation (items_view items.now)) }
{
    has_items(items) && are_operations(items)
}

fn is_rule(json: &Json) -> bool
    ensures { result ≡ is_rule (view json.now) }
{
    has_operations(json)
        && has_texts(json, "apiGroups")
        && has_texts(json, "apiVersions")
        && has_texts(json, "resources")
        && may_have_texts(json, "resourceNames")
}

fn are_rules(items: &[Json]) -> bool
    ensures { result ≡ all_items is_rule (items_view items.now) }
{
    for item in items {
        if !is_rule(item) {
            return false;
        }
    }
    true
}

fn may_have_rules(json: &Json, name: &str) -> bool
    ensures { result ≡ absent_or (is_list_of is_rule) (get name.now (view json.now)) }
{
    match json.get(name) {
        Some(Json::Array(items)) => are_rules(items.as_slice()),
        Some(_) => false,
        None => true,
    }
}

fn may_have_policy(json: &Json) -> bool
    ensures { result ≡ absent_or is_policy (get (codes "matchPolicy") (view json.now)) }
{
    match json.get("matchPolicy") {
        Some(found) => match found.as_str() {
            Some(word) => word == "Exact" || word == "Equivalent",
            None => false,
        },
        None => true,
    }
}

fn has_rules(json: &Json) -> bool
    ensures { result ≡ has_rules (view json.now) }
{
    json.is_object()
        && may_have_rules(json, "resourceRules")
        && may_have_rules(json, "excludeResourceRules")
        && may_have_policy(json)
}

// ---- the rules

fn operations_of(alloc: Global, items: &[Json]) -> Result<Items<Operation>, AllocError>
    ensures { IfOk result (λ operations. operations ≡ each_item operation_of (items_view items.now)) }
{
    let mut operations = Vec::with_capacity(alloc, items.len())?;
    for item in items {
        operations.push(operation_of(item))?;
    }
    Ok(Items::from_vec(operations))
}

fn operation_of(json: &Json) -> Operation
    ensures { result ≡ operation_of (view json.now) }
{
    match operation_at(json) {
        Some(operation) => operation,
        None => Operation::Any,
    }
}

fn scope_of(json: &Json) -> Scope
    ensures { result ≡ scope_of (view json.now) }
{
    match json.get("scope") {
        Some(found) => match scope_at(found) {
            Some(scope) => scope,
            None => Scope::Any,
        },
        None => Scope::Any,
    }
}

fn rule_of(alloc: Global, json: &Json) -> Result<Rule, AllocError>
    ensures { IfOk result (λ rule. rule ≡ rule_of (view json.now)) }
{
    Ok(Rule {
        operations: operations_of(alloc, items_in(json, "operations"))?,
        api_groups: texts_in(alloc, json, "apiGroups")?,
        api_versions: texts_in(alloc, json, "apiVersions")?,
        resources: texts_in(alloc, json, "resources")?,
        scope: scope_of(json),
        resource_names: texts_in(alloc, json, "resourceNames")?,
    })
}

fn rule_list_of(alloc: Global, items: &[Json]) -> Result<Items<Rule>, AllocError>
    ensures { IfOk result (λ rules. rules ≡ each_item rule_of (items_view items.now)) }
{
    let mut rules = Vec::with_capacity(alloc, items.len())?;
    for item in items {
        rules.push(rule_of(alloc, item)?)?;
    }
    Ok(Items::from_vec(rules))
}

fn selector_in(alloc: Global, json: &Json, name: &str) -> Result<Option<Selector>, AllocError>
    ensures { IfOk result (λ selector. selector ≡ option_map selector_of (get name.now (view json.now))) }
{
    match json.get(name) {
        Some(found) => Ok(Some(selector_of(alloc, found)?)),
        None => Ok(None),
    }
}

fn rules_of(alloc: Global, json: &Json) -> Result<Rules, AllocError>
    ensures { IfOk result (λ rules. rules ≡ rules_of (view json.now)) }
{
    Ok(Rules {
        resource_rules: rule_list_of(alloc, items_in(json, "resourceRules"))?,
        exclude_resource_rules: rule_list_of(alloc, items_in(json, "excludeResourceRules"))?,
        namespace_selector: selector_in(alloc, json, "namespaceSelector")?,
        object_selector: selector_in(alloc, json, "objectSelector")?,
    })
}
