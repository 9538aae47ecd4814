//! Names and the words that are none.

ghost use Rattle.std.specs.Prelude.{◌≡◌};
ghost use Rattle.std.specs.Str.{bytes_eq};
ghost use Rattle.cel_lex.specs.Words.{keyword, is_reserved, word_of};

use crate::token::TokenKind;

fn is(word: &[u8], other: &str) -> bool
    ensures { result ≡ bytes_eq word.now other.now }
{
    word == other.as_bytes()
}

/// The token of a word that is a keyword.
pub fn keyword_at(word: &[u8]) -> Option<TokenKind>
    ensures { result ≡ keyword word.now }
{
    if is(word, "true") {
        Some(TokenKind::True)
    } else if is(word, "false") {
        Some(TokenKind::False)
    } else if is(word, "null") {
        Some(TokenKind::Null)
    } else if is(word, "in") {
        Some(TokenKind::In)
    } else {
        None
    }
}

/// Whether a word is reserved: no name, and no keyword.
pub fn is_reserved_word(word: &[u8]) -> bool
    ensures { result ≡ is_reserved word.now }
{
    is(word, "as")
        || is(word, "break")
        || is(word, "const")
        || is(word, "continue")
        || is(word, "else")
        || is(word, "for")
        || is(word, "function")
        || is(word, "if")
        || is(word, "import")
        || is(word, "let")
        || is(word, "loop")
        || is(word, "package")
        || is(word, "namespace")
        || is(word, "return")
        || is(word, "var")
        || is(word, "void")
        || is(word, "while")
}

/// The token that a word is.
#[tactic(auto, unfolding(crate::specs::Words::word_of))]
pub fn token_of(word: &[u8]) -> TokenKind
    ensures { result ≡ word_of word.now }
{
    if let Some(kind) = keyword_at(word) {
        kind
    } else if is_reserved_word(word) {
        TokenKind::Reserved
    } else {
        TokenKind::Name
    }
}
