//! Which requests rules cover, apart from selectors.

ghost use Rattle.std.specs.Prelude.{◌≡◌};
ghost use Rattle.std.specs.List.{list_any};
ghost use Rattle.vap_match.specs.Namespaces.{is_namespace, is_cluster};
ghost use Rattle.vap_match.specs.Cover.{operation_name, is_word_or_any, before_slash, behind_slash, covers_resource};
ghost use Rattle.vap_match.specs.Cover.{is_within, is_named, rule_covers, is_covered, covers};

use crate::label_selection::contains;
use crate::request::{Admission, Request};
use crate::rules::{Operation, Rule, Rules, Scope};
use base_containers::Text;

/// Whether rules cover a request, whatever their selectors say.
pub fn covers(rules: &Rules, request: &Request) -> bool
    ensures { result ≡ covers rules.now request.now.admission }
{
    let admission = request.admission();
    is_covered(rules.resource_rules.as_slice(), admission)
        && !is_excluded(rules.exclude_resource_rules.as_slice(), admission)
}

fn is_covered(rules: &[Rule], request: &Admission) -> bool
    ensures { result ≡ is_covered rules.now request.now }
{
    match rules {
        [] => true,
        [_, ..] => does_one_cover(rules, request),
    }
}

// Most rules exclude nothing: then no function is called.
#[inline(always)]
fn is_excluded(rules: &[Rule], request: &Admission) -> bool
    ensures { result ≡ list_any (rule_covers request.now) rules.now }
{
    match rules {
        [] => false,
        [_, ..] => does_one_cover(rules, request),
    }
}

fn does_one_cover(rules: &[Rule], request: &Admission) -> bool
    ensures { result ≡ list_any (rule_covers request.now) rules.now }
{
    for rule in rules {
        if does_cover(rule, request) {
            return true;
        }
    }
    false
}

fn does_cover(rule: &Rule, request: &Admission) -> bool
    ensures { result ≡ rule_covers request.now rule.now }
{
    names_operation(rule.operations.as_slice(), request.operation.as_str())
        && names_word(rule.api_groups.as_slice(), request.resource.group.as_str())
        && names_word(
            rule.api_versions.as_slice(),
            request.resource.version.as_str(),
        )
        && names_resource(
            rule.resources.as_slice(),
            request.resource.resource.as_str(),
            request.sub_resource.as_str(),
        )
        && is_within(rule.scope, is_cluster(request))
        && is_named(rule.resource_names.as_slice(), request.name.as_str())
}

fn operation_name(operation: Operation) -> &'static str
    ensures { result.now ≡ operation_name operation }
{
    match operation {
        Operation::Create => "CREATE",
        Operation::Update => "UPDATE",
        Operation::Delete => "DELETE",
        Operation::Connect => "CONNECT",
        Operation::Any => "*",
    }
}

fn names_operation(operations: &[Operation], word: &str) -> bool
    ensures { result ≡ list_any (λ o. is_word_or_any word.now (operation_name o)) operations.now }
{
    for operation in operations {
        let name = operation_name(*operation);
        if name == word || name == "*" {
            return true;
        }
    }
    false
}

/// Whether one of these words is the wanted one, or the one for all.
pub fn names_word(words: &[Text], wanted: &str) -> bool
    ensures { result ≡ list_any (is_word_or_any wanted.now) words.now }
{
    for word in words {
        if word.as_str() == wanted || word.as_str() == "*" {
            return true;
        }
    }
    false
}

fn names_resource(patterns: &[Text], resource: &str, sub: &str) -> bool
    ensures { result ≡ list_any (covers_resource resource.now sub.now) patterns.now }
{
    for pattern in patterns {
        if covers_resource(pattern.as_str(), resource, sub) {
            return true;
        }
    }
    false
}

fn covers_resource(pattern: &str, resource: &str, sub: &str) -> bool
    ensures { result ≡ covers_resource resource.now sub.now pattern.now }
{
    let (wanted, wanted_sub) = parts(pattern.as_bytes());
    is_word_or_any(wanted, resource) && is_word_or_any(wanted_sub, sub)
}

/// What is before the first slash of a pattern, and what is after it.
fn parts(pattern: &[u8]) -> (&[u8], &[u8])
    ensures before { result.0.now ≡ before_slash pattern.now }
    ensures behind { result.1.now ≡ behind_slash pattern.now }
{
    for (place, byte) in pattern.iter().enumerate() {
        if *byte == b'/' {
            return (&pattern[..place], &pattern[place + 1..]);
        }
    }
    (pattern, &[])
}

fn is_word_or_any(word: &[u8], wanted: &str) -> bool
    ensures { result ≡ is_word_or_any wanted.now word.now }
{
    word == wanted.as_bytes() || word == "*".as_bytes()
}

fn is_within(scope: Scope, cluster: bool) -> bool
    ensures { result ≡ is_within scope cluster }
{
    match scope {
        Scope::Any => true,
        Scope::Cluster => cluster,
        Scope::Namespaced => !cluster,
    }
}

fn is_named(names: &[Text], name: &str) -> bool
    ensures { result ≡ is_named names.now name.now }
{
    match names {
        [] => true,
        [_, ..] => contains(names, name),
    }
}

/// Whether a request is on a Namespace.
pub fn is_namespace(request: &Admission) -> bool
    ensures { result ≡ is_namespace request.now }
{
    request.resource.group.as_str() == "" && request.resource.resource.as_str() == "namespaces"
}

/// Whether a request is on what is in no namespace.
pub fn is_cluster(request: &Admission) -> bool
    ensures { result ≡ is_cluster request.now }
{
    request.namespace.as_str() == "" || is_namespace(request)
}
