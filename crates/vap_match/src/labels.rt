//! The labels of an object, which are read at their place in its document.

ghost use Rattle.std.specs.Prelude.{◌≡◌};
ghost use Rattle.vap_match.specs.Select.{labels_of, lent_labels, lent_text, label};

use base_containers::Part;

/// The labels of an object, lent: what is under `metadata.labels` of its document, if anything is.
#[derive(Drop)]
pub struct Labels<'t, 'a> {
    pub found: Option<Part<'t, 'a>>,
}

/// The labels of an object.
pub fn labels_of<'t, 'a>(document: &Part<'t, 'a>) -> Labels<'t, 'a>
    ensures { lent_labels result ≡ labels_of document.now }
{
    let found = match document.get("metadata") {
        Some(metadata) => metadata.get("labels"),
        None => None,
    };
    Labels { found }
}

/// The value of a label, if it is there as a text.
pub fn label<'a>(labels: &Labels<'_, 'a>, key: &str) -> Option<&'a str>
    ensures { lent_text result ≡ label (lent_labels labels.now) key.now }
{
    match &labels.found {
        Some(found) => match found.get(key) {
            Some(value) => value.as_str(),
            None => None,
        },
        None => None,
    }
}
