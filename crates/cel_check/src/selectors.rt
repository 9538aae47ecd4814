//! Names as selectors spell them. A selector is compared with a name part by part, and no name is written out.

ghost use Rattle.std.specs.Prelude.{◌≡◌, ◌<◌, [], ◌∷◌, ◌++◌, length, codes, MatchOption, IfSome};
ghost use Rattle.std.specs.Str.{bytes_eq};
ghost use Rattle.cel_check.specs.Selectors.{selects, escaped, spelled_out, spelling};

use cel_lex::{is_reserved_word, keyword_at};

/// Whether a selector selects the property of a name: by how the name is escaped, or by itself if it is a reserved word
/// that is no keyword.
pub fn selects(selector: &str, name: &str) -> bool
    ensures { result ≡ selects selector.now name.now }
{
    let selector = selector.as_bytes();
    let name = name.as_bytes();
    is_escaped(selector, name) || is_reserved_word(name) && name == selector
}

// Whether a selector is a name as it is escaped.
fn is_escaped(selector: &[u8], name: &[u8]) -> bool
    ensures { result ≡ bytes_eq (escaped name.now) selector.now }
{
    if keyword_at(name).is_some() || is_reserved_word(name) {
        is_between_underscores(selector, name)
    } else {
        is_spelled_out(selector, name)
    }
}

// Whether a selector is a word between underscores.
#[tactic(auto, using(crate::proofs::Fronts::front))]
fn is_between_underscores(selector: &[u8], word: &[u8]) -> bool
    ensures { result ≡ bytes_eq (codes "__" ++ (word.now ++ codes "__")) selector.now }
{
    let Some(rest) = selector.strip_prefix("__".as_bytes()) else {
        return false;
    };
    let Some(rest) = rest.strip_prefix(word) else {
        return false;
    };
    "__".as_bytes() == rest
}

// Whether a selector is a name that is spelled out.
#[tactic(auto, using(crate::proofs::Fronts::front))]
fn is_spelled_out(selector: &[u8], name: &[u8]) -> bool
    ensures { result ≡ bytes_eq (spelled_out name.now) selector.now }
{
    let mut selector = selector;
    let mut name = name;
    while let Some((spelling, behind)) = front_spelled(name) {
        let Some(rest) = selector.strip_prefix(spelling) else {
            return false;
        };
        selector = rest;
        name = behind;
    }
    selector.is_empty()
}

// How the front of a name is spelled, and what is after it.
#[tactic(auto, using(crate::proofs::Fronts::both, crate::proofs::Fronts::by_itself))]
fn front_spelled(name: &[u8]) -> Option<(&[u8], &[u8])>
    ensures spelled { MatchOption result (name.now ≡ []) (λ p. spelled_out name.now ≡ p.0.now ++ spelled_out p.1.now) }
    ensures shorter { IfSome result (λ p. length p.1.now < length name.now) }
{
    if let Some(behind) = name.strip_prefix("__".as_bytes()) {
        return Some(("__underscores__".as_bytes(), behind));
    }
    let (first, behind) = name.split_first()?;
    Some((spelling(*first, &name[..1]), behind))
}

// How a byte is spelled; it is also given as a text of its own.
fn spelling(byte: u8, itself: &[u8]) -> &[u8]
    requires { itself.now ≡ byte ∷ [] }
    ensures { result.now ≡ spelling byte }
{
    match byte {
        b'.' => "__dot__".as_bytes(),
        b'-' => "__dash__".as_bytes(),
        b'/' => "__slash__".as_bytes(),
        _ => itself,
    }
}
