//! Words of a text.

ghost use Rattle.std.specs.Prelude.{◌≡◌, ◌≤◌, length, drop};
ghost use Rattle.std.specs.List.{prefix_len};
ghost use Rattle.cel_lex.specs.Bytes.{is_name};
ghost use Rattle.cel_parse.specs.Words.{word_at, is_has};

fn is_in_word(c: u8) -> bool
    ensures { result ≡ is_name c }
{
    97 <= c && c <= 122 || 65 <= c && c <= 90 || c == 95 || 48 <= c && c <= 57
}

// How many letters, digits and underscores come first.
fn word_len(bytes: &[u8]) -> usize
    ensures value { result ≡ prefix_len is_name bytes.now }
    ensures within { result ≤ length bytes.now }
{
    for (i, c) in bytes.iter().enumerate() {
        if !is_in_word(*c) {
            return i;
        }
    }
    bytes.len()
}

/// The word that begins at a place: the letters, digits and underscores from there on.
#[tactic(auto, unfolding(crate::specs::Words::word_at))]
pub fn word_at(text: &str, place: usize) -> &str
    ensures { result.now ≡ word_at text.now place }
{
    let bytes = text.as_bytes();
    if place >= bytes.len() {
        return "";
    }
    let length = word_len(&bytes[place..]);
    if length == 0 {
        return "";
    }
    &text[place..place + length]
}

/// Whether the word at a place is the macro that tests for a field.
#[tactic(auto, unfolding(crate::specs::Words::is_has))]
pub fn is_has(text: &str, place: usize) -> bool
    ensures { result ≡ is_has text.now place }
{
    word_at(text, place).as_bytes() == b"has".as_slice()
}
