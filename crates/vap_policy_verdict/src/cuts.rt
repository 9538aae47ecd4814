//! Texts that are cut if they are too long.

ghost use Rattle.std.specs.Prelude.{◌≡◌};
ghost use Rattle.vap_policy_verdict.specs.Cut.{cut_text, IsLongestCut};

/// The longest beginning of whole characters within so many bytes: of a text that is no longer, all of it.
pub fn cut(text: &str, most: usize) -> &str
    ensures exact { result.now ≡ cut_text most text.now }
    ensures longest { IsLongestCut most text.now result.now }
{
    let end = text.floor_char_boundary(most);
    let (front, _) = text.split_at(end);
    front
}
