//! From a document to a selector.

ghost use Rattle.std.specs.Prelude.{◌≡◌, IfOk, IfErr, codes};
ghost use Rattle.serde_json.specs.Find.{get};
ghost use Rattle.serde_json.specs.View.{view, items_view, members_view};
ghost use Rattle.base_containers.specs.Failures.{Answers, IfFault};
ghost use Rattle.vap_match.specs.Forms.{absent_or, all_items, is_list_of};
ghost use Rattle.vap_match.specs.Parts.{each_item, text_of};
ghost use Rattle.vap_match.specs.SelectorForm.{operator_word, operator_in, has_values_for, is_requirement, is_selector};
ghost use Rattle.vap_match.specs.SelectorForm.{requirement_of, texts_under, wanted_labels, selector_of, read_selector, IsOnly};

use crate::forms::{has_no_items, has_text, has_texts, may_have_named_texts};
use crate::match_fault::{MatchError, MatchFault};
use crate::parts::{items_in, text_in, text_of, texts_in};
use crate::selector::{Operator, Requirement, Selector};
use base_containers::{Items, Keyed, Text};
use serde_json::{Map, Value as Json};
use std::alloc::{AllocError, Global};

impl Selector {
    /// The selector that a document is, or that it is none, which is the one fault that it can have.
    #[tactic(auto, using(crate::proofs::OnlyFault::only_fault, crate::proofs::OnlyFault::only))]
    pub fn from_json(alloc: Global, json: &Json) -> Result<Selector, MatchError>
        ensures exact { Answers (read_selector (view json.now)) result }
        ensures only { IfErr result (IfFault (IsOnly (view json.now))) }
    {
        if is_selector(json) {
            Ok(selector_of(alloc, json)?)
        } else {
            Err(MatchError::Fault(MatchFault::BadOperator))
        }
    }
}

// ---- the form

fn operator_word(word: &str) -> Option<Operator>
    ensures { result ≡ operator_word word.now }
{
    if word == "In" {
        Some(Operator::In)
    } else if word == "NotIn" {
        Some(Operator::NotIn)
    } else if word == "Exists" {
        Some(Operator::Exists)
    } else if word == "DoesNotExist" {
        Some(Operator::DoesNotExist)
    } else {
        None
    }
}

fn operator_in(json: &Json) -> Option<Operator>
    ensures { result ≡ operator_in (view json.now) }
{
    match json.get("operator") {
        Some(found) => match found.as_str() {
            Some(word) => operator_word(word),
            None => None,
        },
        None => None,
    }
}

fn is_requirement(json: &Json) -> bool
    ensures { result ≡ is_requirement (view json.now) }
{
    has_text(json, "key")
        && match operator_in(json) {
            Some(Operator::In | Operator::NotIn) => has_texts(json, "values"),
            Some(Operator::Exists | Operator::DoesNotExist) => has_no_items(json, "values"),
            None => false,
        }
}

fn are_requirements(items: &[Json]) -> bool
    ensures { result ≡ all_items is_requirement (items_view items.now) }
{
    for item in items {
        if !is_requirement(item) {
            return false;
        }
    }
    true
}

fn may_have_requirements(json: &Json) -> bool
    ensures { result ≡ absent_or (is_list_of is_requirement) (get (codes "matchExpressions") (view json.now)) }
{
    match json.get("matchExpressions") {
        Some(Json::Array(items)) => are_requirements(items.as_slice()),
        Some(_) => false,
        None => true,
    }
}

/// Whether a document is a selector.
pub fn is_selector(json: &Json) -> bool
    ensures { result ≡ is_selector (view json.now) }
{
    json.is_object() && may_have_named_texts(json, "matchLabels") && may_have_requirements(json)
}

// ---- the selector

fn requirement_of(alloc: Global, json: &Json) -> Result<Requirement, AllocError>
    ensures { IfOk result (λ requirement. requirement ≡ requirement_of (view json.now)) }
{
    let operator = match operator_in(json) {
        Some(operator) => operator,
        None => Operator::Exists,
    };
    Ok(Requirement {
        key: Text::from_str(alloc, text_in(json, "key"))?,
        operator,
        values: texts_in(alloc, json, "values")?,
    })
}

fn requirements_of(alloc: Global, items: &[Json]) -> Result<Items<Requirement>, AllocError>
    ensures { IfOk result (λ requirements. requirements ≡ each_item requirement_of (items_view items.now)) }
{
    let mut requirements = Vec::with_capacity(alloc, items.len())?;
    for item in items {
        requirements.push(requirement_of(alloc, item)?)?;
    }
    Ok(Items::from_vec(requirements))
}

fn texts_under(alloc: Global, members: &Map<String, Json>) -> Result<Items<Keyed<Text>>, AllocError>
    ensures { IfOk result (λ texts. texts ≡ texts_under (members_view members.now.entries)) }
{
    let mut texts = Vec::with_capacity(alloc, members.len())?;
    for (name, member) in members.iter() {
        texts.push(text_under(alloc, name.as_str(), member)?)?;
    }
    Ok(Items::from_vec(texts))
}

fn text_under(alloc: Global, name: &str, member: &Json) -> Result<Keyed<Text>, AllocError>
    ensures { IfOk result (λ text. (text.key ≡ name.now) × (text.value ≡ text_of (view member.now))) }
{
    Ok(Keyed {
        key: Text::from_str(alloc, name)?,
        value: Text::from_str(alloc, text_of(member))?,
    })
}

fn wanted_labels(alloc: Global, json: &Json) -> Result<Items<Keyed<Text>>, AllocError>
    ensures { IfOk result (λ labels. labels ≡ wanted_labels (get (codes "matchLabels") (view json.now))) }
{
    match json.get("matchLabels") {
        Some(Json::Object(members)) => Ok(texts_under(alloc, members)?),
        _ => Ok(Items::new(alloc)),
    }
}

/// The selector that a document is, whatever its form.
pub fn selector_of(alloc: Global, json: &Json) -> Result<Selector, AllocError>
    ensures { IfOk result (λ selector. selector ≡ selector_of (view json.now)) }
{
    Ok(Selector {
        match_labels: wanted_labels(alloc, json)?,
        match_expressions: requirements_of(alloc, items_in(json, "matchExpressions"))?,
    })
}
