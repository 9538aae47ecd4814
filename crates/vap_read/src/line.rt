//! Which kind a line's document is of.

ghost use Rattle.std.specs.Prelude.{◌≡◌};
ghost use Rattle.serde_json.specs.Find.{get};
ghost use Rattle.serde_json.specs.View.{view};
ghost use Rattle.vap_match.specs.Parts.{text_in, text_of};
ghost use Rattle.vap_read.specs.Lines.{is_of, line_kind, action_of, action_in};

use base_containers::Part;
use serde_json::Value as Json;

#[derive(Clone, Copy, Debug, PartialEq, Eq)]
pub enum LineKind {
    /// An object that has changed.
    WatchEvent,
    /// All objects.
    ObjectList,
    /// A request that asks for admission.
    Review,
    Unknown,
}

/// What a watch event does with its object.
#[derive(Clone, Copy, Debug, PartialEq, Eq)]
pub enum Action {
    Put,
    Remove,
    Pass,
}

/// The kind of a line's document.
pub fn line_kind(line: &Part<'_, '_>) -> LineKind
    ensures { result ≡ line_kind line.now }
{
    if line.get("type").is_some() {
        LineKind::WatchEvent
    } else if is_of(line, "v1", "List") {
        LineKind::ObjectList
    } else if is_of(line, "admission.k8s.io/v1", "AdmissionReview") {
        LineKind::Review
    } else {
        LineKind::Unknown
    }
}

/// Whether a document says that it is of this version and kind.
pub fn is_of(document: &Part<'_, '_>, api_version: &str, kind: &str) -> bool
    ensures { result ≡ is_of api_version.now kind.now document.now }
{
    text_in(document, "apiVersion") == api_version && text_in(document, "kind") == kind
}

/// The text, empty if there is none.
fn text_of<'a>(document: &Part<'_, 'a>) -> &'a str
    ensures { result.now ≡ text_of document.now }
{
    match document.as_str() {
        Some(text) => text,
        None => "",
    }
}

/// The text of a member, empty if there is none.
fn text_in<'a>(document: &Part<'_, 'a>, name: &str) -> &'a str
    ensures { result.now ≡ text_in (get name.now document.now) }
{
    match document.get(name) {
        Some(found) => text_of(&found),
        None => "",
    }
}

fn action_of(word: &str) -> Option<Action>
    ensures { result ≡ action_of word.now }
{
    if word == "ADDED" || word == "MODIFIED" {
        Some(Action::Put)
    } else if word == "DELETED" {
        Some(Action::Remove)
    } else if word == "BOOKMARK" || word == "ERROR" {
        Some(Action::Pass)
    } else {
        None
    }
}

/// What a watch event's word asks for, if it is one of the five.
pub fn action_in(line: &Json) -> Option<Action>
    ensures { result ≡ action_in (view line.now) }
{
    action_of(vap_match::text_in(line, "type"))
}
