ghost use Rattle.std.specs.Prelude.{◌≡◌, ◌↔◌, IsTrue};
ghost use Rattle.cel_operators.specs.Parts.{starts_with, ends_with, contains, StartsWith, EndsWith, Contains};

/// Whether a text begins with another. Each text begins with the empty one.
pub fn starts_with(text: &str, prefix: &str) -> bool
    ensures exact { result ≡ starts_with text.now prefix.now }
    ensures first { IsTrue result ↔ StartsWith text.now prefix.now }
{
    text.starts_with(prefix)
}

/// Whether a text ends with another. Each text ends with the empty one.
pub fn ends_with(text: &str, suffix: &str) -> bool
    ensures exact { result ≡ ends_with text.now suffix.now }
    ensures last { IsTrue result ↔ EndsWith text.now suffix.now }
{
    text.ends_with(suffix)
}

/// Whether a text has another somewhere. The empty one is in each text.
pub fn contains(text: &str, part: &str) -> bool
    ensures exact { result ≡ contains text.now part.now }
    ensures somewhere { IsTrue result ↔ Contains text.now part.now }
{
    text.contains(part)
}
