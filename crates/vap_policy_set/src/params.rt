//! The types of names, and which kinds rules name.

ghost use Rattle.std.specs.Prelude.{◌≡◌, ◌↔◌, IfOk, IsTrue};
ghost use Rattle.vap_match.specs.Cover.{is_word_or_any, before_slash};
ghost use Rattle.std.specs.List.{list_any};
ghost use Rattle.vap_policy_set.specs.Kinds.{is_named_by, params_by, params_type, rule_names, type_or_opaque};
ghost use Rattle.vap_policy_programs.specs.declared.names.ParamsType.TheVariants.{Absent, Unknown};
ghost use Rattle.vap_policy_set.specs.Kinds.{types_at};

use base_containers::{Shared, Text};
use cel_value::{CelType, same_type};
use std::alloc::{AllocError, Global};
use vap_match::{Rule, names_word};
use vap_policy_programs::{FixedTypes, KindTypes, ParamsType};
use vap_read::ParamKind;
use vap_read_objects::{Kind, kind_of_params};

fn params_by(alloc: Global, cel_type: &Option<CelType>) -> Result<ParamsType, AllocError>
    ensures { IfOk result (λ t. t ≡ params_by cel_type.now) }
{
    match cel_type {
        Some(cel_type) => Ok(ParamsType::Known(Shared::new(alloc, cel_type.copy()?)?)),
        None => Ok(ParamsType::Unknown),
    }
}

/// What the params of a policy are.
pub fn params_type(
    alloc: Global,
    kinds: &[Kind],
    params: &Option<ParamKind>,
) -> Result<ParamsType, AllocError>
    ensures { IfOk result (λ t. t ≡ params_type kinds.now params.now) }
{
    match params {
        None => Ok(ParamsType::Absent),
        Some(params) => match kind_of_params(kinds, params) {
            Some(kind) => params_by(alloc, &kind.object_type),
            None => Ok(ParamsType::Unknown),
        },
    }
}

/// The type of objects of a kind. It is not known if the kind is not known.
pub fn object_type(cel_type: &Option<CelType>) -> Result<CelType, AllocError>
    ensures { IfOk result (λ t. t ≡ type_or_opaque cel_type.now) }
{
    match cel_type {
        Some(cel_type) => cel_type.copy(),
        None => Ok(CelType::Opaque),
    }
}

/// Whether a type is that of the objects of a kind.
pub fn is_object_type(known: &CelType, cel_type: &Option<CelType>) -> bool
    ensures { IsTrue result ↔ (known.now ≡ type_or_opaque cel_type.now) }
{
    match cel_type {
        Some(cel_type) => same_type(known, cel_type),
        None => same_type(known, &CelType::Opaque),
    }
}

fn is_params_by(known: &ParamsType, cel_type: &Option<CelType>) -> bool
    ensures { IsTrue result ↔ (known.now ≡ params_by cel_type.now) }
{
    match (known, cel_type) {
        (ParamsType::Known(known), Some(cel_type)) => same_type(known.get(), cel_type),
        (ParamsType::Unknown, None) => true,
        _ => false,
    }
}

fn is_unknown(known: &ParamsType) -> bool
    ensures { IsTrue result ↔ (known.now ≡ Unknown) }
{
    match known {
        ParamsType::Unknown => true,
        ParamsType::Absent | ParamsType::Known(_) => false,
    }
}

fn is_absent(known: &ParamsType) -> bool
    ensures { IsTrue result ↔ (known.now ≡ Absent) }
{
    match known {
        ParamsType::Absent => true,
        ParamsType::Unknown | ParamsType::Known(_) => false,
    }
}

/// Whether this is what the params of a policy are.
pub fn is_params_type(known: &ParamsType, kinds: &[Kind], params: &Option<ParamKind>) -> bool
    ensures { IsTrue result ↔ (known.now ≡ params_type kinds.now params.now) }
{
    match params {
        None => is_absent(known),
        Some(params) => match kind_of_params(kinds, params) {
            Some(kind) => is_params_by(known, &kind.object_type),
            None => is_unknown(known),
        },
    }
}

/// The types of all names except `params`, if the objects are of this type.
pub fn types_at(
    alloc: Global,
    fixed: &FixedTypes,
    cel_type: &CelType,
) -> Result<KindTypes, AllocError>
    ensures { IfOk result (λ types. types ≡ types_at cel_type.now) }
{
    Ok(KindTypes {
        object: Shared::new(alloc, cel_type.copy()?)?,
        request: fixed.request().copy()?,
        namespace: fixed.namespace().share()?,
    })
}

/// Whether one of these patterns has the wanted resource before a slash, or the word for all.
pub fn names_resource(patterns: &[Text], resource: &str) -> bool
    ensures { result ≡ list_any (λ pattern. is_word_or_any resource.now (before_slash pattern)) patterns.now }
{
    for pattern in patterns {
        let before = resource_in(pattern.as_str());
        if before == resource || before == "*" {
            return true;
        }
    }
    false
}

/// What is before the first slash of a pattern: all of it, if there is none.
pub fn resource_in(pattern: &str) -> &str
    ensures { result.now ≡ before_slash pattern.now }
{
    match pattern.split_once('/') {
        Some((before, _)) => before,
        None => pattern,
    }
}

fn rule_names(kind: &Kind, rule: &Rule) -> bool
    ensures { result ≡ rule_names kind.now rule.now }
{
    names_word(rule.api_groups.as_slice(), kind.group.as_str())
        && names_word(rule.api_versions.as_slice(), kind.version.as_str())
        && names_resource(rule.resources.as_slice(), kind.plural.as_str())
}

/// Whether one of these rules names a kind's group, version and resource. Without any rules, all kinds are named.
pub fn is_named_by(rules: &[Rule], kind: &Kind) -> bool
    ensures { result ≡ is_named_by rules.now kind.now }
{
    match rules {
        [] => true,
        [_, ..] => does_one_name(rules, kind),
    }
}

fn does_one_name(rules: &[Rule], kind: &Kind) -> bool
    ensures { result ≡ list_any (rule_names kind.now) rules.now }
{
    for rule in rules {
        if rule_names(kind, rule) {
            return true;
        }
    }
    false
}
