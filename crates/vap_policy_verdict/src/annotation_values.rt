//! All values under a key, each value once, in the order in which they first appear.

ghost use Rattle.std.specs.Prelude.{◌≡◌, IfOk};
ghost use Rattle.vap_policy_verdict.specs.DecisionAnnotations.{values_at, joined};

use base_containers::{Keyed, Text};
use std::alloc::{AllocError, Global};
use vap_match::contains;

fn distinct_values(
    alloc: Global,
    key: &str,
    entries: &[Keyed<Text>],
) -> Result<Vec<Text>, AllocError>
    ensures { IfOk result (λ texts. texts.items ≡ values_at key.now entries.now) }
{
    let mut texts = Vec::new(alloc);
    for entry in entries {
        if entry.key.as_str() == key && !contains(texts.as_slice(), entry.value.as_str()) {
            texts.push(entry.value.copy()?)?;
        }
    }
    Ok(texts)
}

fn join(alloc: Global, texts: &[Text]) -> Result<Text, AllocError>
    ensures { IfOk result (λ text. text ≡ joined texts.now) }
{
    match texts {
        [] => Text::from_str(alloc, ""),
        [first, rest @ ..] => {
            let mut out = String::from_str(alloc, first.as_str())?;
            for text in rest {
                out.push_str(", ")?;
                out.push_str(text.as_str())?;
            }
            Ok(Text::from_string(out))
        }
    }
}

/// The values under a key, each once, joined.
pub fn joined_values(alloc: Global, key: &str, entries: &[Keyed<Text>]) -> Result<Text, AllocError>
    ensures { IfOk result (λ text. text ≡ joined (values_at key.now entries.now)) }
{
    let values = distinct_values(alloc, key, entries)?;
    join(alloc, values.as_slice())
}
