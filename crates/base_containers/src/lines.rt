//! How lines end.

ghost use Rattle.std.specs.Prelude.{◌≡◌, ◌≢◌, ◌+◌, ◌<◌, ◌∷◌, ◌++◌, length, take, drop, IfErr, IfNone, IfSome, OnErr, OnOk};
ghost use Rattle.std.specs.List.{All};

/// The most bytes of a line, without its line feed.
pub const LONGEST_LINE: usize = 1_048_576;

/// How a line ended.
#[derive(Clone, Copy, Debug, PartialEq, Eq)]
pub enum Ending {
    /// At a line feed, which is read and is not in the line.
    Feed,
    /// At the end of the input.
    End,
    /// At the limit: the line goes on.
    TooLong,
}

/// Why there is no line.
#[derive(Clone, Copy, Debug, PartialEq, Eq)]
pub enum LineError {
    /// A read failed, or there were as many as there may be.
    Read,
    OutOfMemory,
}

/// The place of the first line feed.
pub(crate) fn feed_at(bytes: &[u8]) -> Option<usize>
    ensures found { IfSome result (λ i. (i < length bytes.now)
        × (bytes.now ≡ take i bytes.now ++ 10 ∷ drop (i + 1) bytes.now) × All (λ x. x ≢ 10) (take i bytes.now)) }
    ensures none { IfNone result (All (λ x. x ≢ 10) bytes.now) }
{
    memchr::memchr(b'\n', bytes)
}

pub(crate) fn append(line: &mut Vec<u8>, bytes: &[u8]) -> Result<(), LineError>
    ensures ok { OnOk result (line.new.items ≡ line.old.items ++ bytes.now) }
    ensures err { OnErr result (line.new.items ≡ line.old.items) }
    ensures memory { IfErr result (λ error. error ≡ LineError.OutOfMemory) }
{
    line.extend_from_slice(bytes)
        .map_err(|_| LineError::OutOfMemory)
}
