//! Which labels a selector selects.

ghost use Rattle.std.specs.Prelude.{◌≡◌};
ghost use Rattle.std.specs.List.{list_all, list_any};
ghost use Rattle.std.specs.Str.{bytes_eq};
ghost use Rattle.vap_match.specs.Select.{lent_labels, lent_text, label, is_among, meets, has_label, selects};

use crate::labels::{Labels, label};
use crate::selector::{Operator, Requirement, Selector};
use base_containers::{Keyed, Text};

/// Whether a selector selects these labels.
pub fn selects(selector: &Selector, labels: &Labels<'_, '_>) -> bool
    ensures { result ≡ selects selector.now (lent_labels labels.now) }
{
    has_all(labels, selector.match_labels.as_slice())
        && meets_all(labels, selector.match_expressions.as_slice())
}

fn has_all(labels: &Labels<'_, '_>, wanted: &[Keyed<Text>]) -> bool
    ensures { result ≡ list_all (has_label (lent_labels labels.now)) wanted.now }
{
    for one in wanted {
        if !has_label(labels, one) {
            return false;
        }
    }
    true
}

fn has_label(labels: &Labels<'_, '_>, wanted: &Keyed<Text>) -> bool
    ensures { result ≡ has_label (lent_labels labels.now) wanted.now }
{
    match label(labels, wanted.key.as_str()) {
        Some(value) => value == wanted.value.as_str(),
        None => false,
    }
}

fn meets_all(labels: &Labels<'_, '_>, requirements: &[Requirement]) -> bool
    ensures { result ≡ list_all (meets (lent_labels labels.now)) requirements.now }
{
    for requirement in requirements {
        if !meets(labels, requirement) {
            return false;
        }
    }
    true
}

fn meets(labels: &Labels<'_, '_>, requirement: &Requirement) -> bool
    ensures { result ≡ meets (lent_labels labels.now) requirement.now }
{
    let value = label(labels, requirement.key.as_str());
    let values = requirement.values.as_slice();
    match requirement.operator {
        Operator::In => is_among(value, values),
        Operator::NotIn => !is_among(value, values),
        Operator::Exists => value.is_some(),
        Operator::DoesNotExist => value.is_none(),
    }
}

/// Whether a label is there with one of these values.
fn is_among(value: Option<&str>, values: &[Text]) -> bool
    ensures { result ≡ is_among values.now (lent_text value.entry) }
{
    match value {
        Some(value) => contains(values, value),
        None => false,
    }
}

/// Whether a text is one of these.
pub fn contains(texts: &[Text], text: &str) -> bool
    ensures { result ≡ list_any (bytes_eq text.now) texts.now }
{
    for one in texts {
        if text == one.as_str() {
            return true;
        }
    }
    false
}
