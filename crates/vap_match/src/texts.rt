//! Texts and lists of texts of documents.

ghost use Rattle.std.specs.Prelude.{◌≡◌, IfOk};
ghost use Rattle.serde_json.specs.Find.{get};
ghost use Rattle.base_containers.specs.Gathered.{items_of as gathered};
ghost use Rattle.vap_match.specs.Forms.{there_and, absent_or, is_text, is_list_of, all_items};
ghost use Rattle.vap_match.specs.TextLimits.{is_short, short_at};
ghost use Rattle.vap_match.specs.Parts.{text_of, text_in, items_of, items_in, each_item};

use crate::text_limits::is_short;
use base_containers::{Items, Part, Text};
use std::alloc::{AllocError, Global};

fn is_text(part: &Part<'_, '_>) -> bool
    ensures { result ≡ is_text part.now }
{
    part.as_str().is_some()
}

/// Whether a member that was looked up is a text.
pub fn is_there_as_text(found: &Option<Part<'_, '_>>) -> bool
    ensures { result ≡ there_and is_text found.now }
{
    match found {
        Some(part) => is_text(part),
        None => false,
    }
}

/// Whether a member that was looked up is a text, if it is there.
pub fn may_be_text(found: &Option<Part<'_, '_>>) -> bool
    ensures { result ≡ absent_or is_text found.now }
{
    match found {
        Some(part) => is_text(part),
        None => true,
    }
}

pub fn may_have_text(part: &Part<'_, '_>, name: &str) -> bool
    ensures { result ≡ absent_or is_text (get name.now part.now) }
{
    may_be_text(&part.get(name))
}

fn are_texts(items: &[Part<'_, '_>]) -> bool
    ensures { result ≡ all_items is_text (gathered items.now) }
{
    for item in items {
        if !is_text(item) {
            return false;
        }
    }
    true
}

/// Whether a document is a list of texts.
pub fn is_text_list(alloc: Global, part: &Part<'_, '_>) -> Result<bool, AllocError>
    ensures { IfOk result (λ is. is ≡ is_list_of is_text part.now) }
{
    match part.items(alloc)? {
        Some(items) => Ok(are_texts(items.as_slice())),
        None => Ok(false),
    }
}

pub fn may_have_texts(alloc: Global, part: &Part<'_, '_>, name: &str) -> Result<bool, AllocError>
    ensures { IfOk result (λ may. may ≡ absent_or (is_list_of is_text) (get name.now part.now)) }
{
    match part.get(name) {
        Some(found) => is_text_list(alloc, &found),
        None => Ok(true),
    }
}

/// The text, empty if there is none.
pub fn text_of<'a>(part: &Part<'_, 'a>) -> &'a str
    ensures { result.now ≡ text_of part.now }
{
    match part.as_str() {
        Some(text) => text,
        None => "",
    }
}

/// The text of a member that was looked up, empty if there is none.
pub fn found_text<'a>(found: &Option<Part<'_, 'a>>) -> &'a str
    ensures { result.now ≡ text_in found.now }
{
    match found {
        Some(part) => text_of(part),
        None => "",
    }
}

/// Whether the text of a member that was looked up is within a limit.
pub fn is_short_text(found: &Option<Part<'_, '_>>, limit: usize) -> bool
    ensures { result ≡ is_short limit (text_in found.now) }
{
    is_short(found_text(found), limit)
}

pub fn short_at(part: &Part<'_, '_>, name: &str, limit: usize) -> bool
    ensures { result ≡ short_at limit name.now part.now }
{
    is_short_text(&part.get(name), limit)
}

/// The items of a document, none if it is no list.
pub fn items_of<'t, 'a>(alloc: Global, part: &Part<'t, 'a>) -> Result<Vec<Part<'t, 'a>>, AllocError>
    ensures { IfOk result (λ items. gathered items.items ≡ items_of part.now) }
{
    match part.items(alloc)? {
        Some(items) => Ok(items),
        None => Ok(Vec::new(alloc)),
    }
}

/// The items of a member, none if it is no list.
pub fn items_in<'t, 'a>(
    alloc: Global,
    part: &Part<'t, 'a>,
    name: &str,
) -> Result<Vec<Part<'t, 'a>>, AllocError>
    ensures { IfOk result (λ items. gathered items.items ≡ items_in (get name.now part.now)) }
{
    match part.get(name) {
        Some(found) => items_of(alloc, &found),
        None => Ok(Vec::new(alloc)),
    }
}

/// The texts of items; an item that is no text gives an empty one.
pub fn texts_of(alloc: Global, items: &[Part<'_, '_>]) -> Result<Items<Text>, AllocError>
    ensures { IfOk result (λ texts. texts ≡ each_item text_of (gathered items.now)) }
{
    let mut texts = Vec::with_capacity(alloc, items.len())?;
    for item in items {
        texts.push(Text::from_str(alloc, text_of(item))?)?;
    }
    Ok(Items::from_vec(texts))
}
