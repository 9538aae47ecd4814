//! The writer's end of a board.

ghost use Rattle.std.specs.Prelude.{◌≡◌, ℕ, ◌+◌, ◌*◌, ◌<◌, ◌^◌, ◌++◌, ◌∷◌, [], length, true, false, IfSome, MatchResult};
ghost use Rattle.logbook.specs.Pages.{may_write};
ghost use Rattle.vap_watch.specs.Begins.{StartsWith};
ghost use Rattle.vap_watch.specs.Entries.{Under, entry, head_of};
ghost use Rattle.vap_watch.specs.Shown.{drafts, shows};

use crate::board_rule::{Attempt, Conclusion, Grows, Nothing};
use crate::entry::Entry;
use crate::listed::Listed;
use crate::note::{Note, Told};
use logbook::{Offer, Pen, Seen, Start, Word};
use std::marker::Model;

/// Each publication takes two numbers of a board.
const MOST: u64 = 1 << 60;

/// The writer's end of a board. Contracts see it as the board and the published list.
#[derive(Drop)]
pub struct Board<X> {
    head: Word<Entry<X>, u64, Grows>,
    seen: Seen<Entry<X>, u64, Grows>,
    count: u64,
    at: u64,
}

impl<X> Model for Board<X> {
    ghost use Rattle.std.specs.Prelude.{◌≡◌, ◌+◌, ◌*◌, ℕ, length};
    ghost use Rattle.vap_watch.specs.Entries.{IsTold, Under, head_of, nth};
    ghost use Rattle.vap_watch.specs.Shown.{Shown, shown_code, shows};

    ghost Value = { Shown X };

    ghost coded = { shown_code X.code };

    ghost view = { λ s. shows s.seen.book (nth s.seen.log s.at).list };

    ghost invariant = { λ s. (s.head ≡ head_of s.seen.book) × (s.count ≡ length s.seen.log) × ((m : ℕ) × (s.count + 2 ≡ 2 * m))
        × IsTold s.seen.log s.at × Under s.seen.log (nth s.seen.log s.at).list };
}

/// A list that is on the board and not published yet, with the one that is. Contracts see it as both and the board.
#[derive(Drop)]
pub struct Draft<X> {
    head: Word<Entry<X>, u64, Grows>,
    seen: Seen<Entry<X>, u64, Grows>,
    pen: Pen,
    at: u64,
    next: u64,
}

impl<X> Model for Draft<X> {
    ghost use Rattle.std.specs.Prelude.{◌≡◌, ◌+◌, ◌*◌, ◌<◌, ◌^◌, ℕ, length};
    ghost use Rattle.logbook.specs.Pages.{may_write};
    ghost use Rattle.vap_watch.specs.Begins.{StartsWith};
    ghost use Rattle.vap_watch.specs.Entries.{IsTold, Under, head_of, nth};
    ghost use Rattle.vap_watch.specs.Shown.{Drafted, drafted_code, drafts};

    ghost Value = { Drafted X };

    ghost coded = { drafted_code X.code };

    ghost view = { λ s. drafts s.seen.book (nth s.seen.log s.at).list (nth s.seen.log s.next).list };

    ghost invariant = { λ s. (s.head ≡ head_of s.seen.book) × (s.next + 1 ≡ length s.seen.log) × (s.next < 2 ^ 62)
        × (s.pen.book ≡ s.seen.book) × (s.pen.nib.right ≡ may_write) × (2 * s.pen.nib.key ≡ s.next + 2)
        × IsTold s.seen.log s.at × Under s.seen.log (nth s.seen.log s.at).list
        × StartsWith (nth s.seen.log s.next).list (nth s.seen.log s.at).list };
}

/// Puts a list on the board after all that was seen, and answers the right to put the next one there. No run finds more on the
/// board than was seen.
fn attempt<X, L: Listed<X>>(
    head: &Word<Entry<X>, u64, Grows>,
    seen: &mut Seen<Entry<X>, u64, Grows>,
    count: u64,
    value: &L,
) -> Option<Pen>
    requires head { head.now ≡ head_of seen.old.book }
    requires count { (length seen.old.log ≡ count) × (count < 2 ^ 62) × ((m : ℕ) × (count + 2 ≡ 2 * m)) }
    requires under { Under seen.old.log (L.list value.now) }
    ensures put { IfSome result (λ _. (seen.new.book ≡ seen.old.book)
        × (seen.new.log ≡ seen.old.log ++ entry (L.list value.now) false ∷ [])) }
    ensures pen { IfSome result (λ pen. (pen.book ≡ seen.old.book) × (pen.nib.right ≡ may_write) × (2 * pen.nib.key ≡ count + 2)) }
{
    let mut offer: Offer<Entry<X>, u64, Grows, Nothing> = seen.plain::<Nothing, L, Attempt>(value);
    let mut pen = seen.no_pen();
    let found = head.compare_exchange::<Attempt, Nothing>(
        count,
        count + 1,
        seen,
        &mut offer,
        &mut pen,
    );
    if found != count {
        return None;
    }
    // The word is made and dropped at once: the right to write it is all that is used.
    let _lock: Word<Entry<X>, u64, Grows> = Word::tracked(0, &mut pen);
    Some(pen)
}

/// Puts, after it, the list that is published now.
fn conclude<X, L: Listed<X>>(
    head: &Word<Entry<X>, u64, Grows>,
    seen: &mut Seen<Entry<X>, u64, Grows>,
    mut pen: Pen,
    count: u64,
    value: &L,
)
    requires head { head.now ≡ head_of seen.old.book }
    requires count { (length seen.old.log ≡ count) × (count < 2 ^ 63) }
    requires pen { (pen.book ≡ seen.old.book) × (pen.nib.right ≡ may_write) × (2 * pen.nib.key ≡ count + 1) }
    requires under { Under seen.old.log (L.list value.now) }
    ensures { (seen.new.book ≡ seen.old.book) × (seen.new.log ≡ seen.old.log ++ entry (L.list value.now) true ∷ []) }
{
    let mut offer: Offer<Entry<X>, u64, Grows, Nothing> = seen.plain::<Nothing, L, Conclusion>(
        value,
    );
    head.compare_exchange::<Conclusion, Nothing>(count, count + 1, seen, &mut offer, &mut pen);
}

impl<X> Board<X> {
    /// A new board, on which the empty list is published.
    pub fn open() -> Board<X>
        ensures { result.list ≡ [] }
    {
        let (seen, mut first, _second) = Seen::open(Start::alone(), 2, 0);
        Board {
            head: Word::tracked(2, &mut first),
            seen,
            count: 2,
            at: 0,
        }
    }

    /// Names the published list.
    pub fn told(&self) -> Told<X>
        ensures { result ≡ self.now }
    {
        Told::new(self.seen.again(), self.at)
    }

    /// A note of the published list.
    pub fn note(&self) -> Note<X>
        ensures { result ≡ self.now }
    {
        Note::new(self.seen.again(), self.at)
    }

    /// Puts a list on the board that begins with the published one. It is refused if the board is full, or has more than was put
    /// there by this writer, which happens in no run.
    pub fn draft<L: Listed<X>>(self, value: &L) -> Result<Draft<X>, Board<X>>
        requires { StartsWith (L.list value.now) self.list }
        ensures { MatchResult result (λ d. d ≡ drafts self.board self.list (L.list value.now)) (λ b. b ≡ self) }
    {
        let mut seen = self.seen.again();
        if self.count >= MOST {
            return Err(self);
        }
        let Some(pen) = attempt(&self.head, &mut seen, self.count, value) else {
            return Err(self);
        };
        let Board {
            head,
            seen: _seen,
            count,
            at,
        } = self;
        Ok(Draft {
            head,
            seen,
            pen,
            at,
            next: count,
        })
    }
}

impl<X> Draft<X> {
    /// A note of the next list.
    pub fn note(&self) -> Note<X>
        ensures { result ≡ shows self.now.board self.now.next }
    {
        Note::new(self.seen.again(), self.next)
    }

    /// The next list was published.
    pub fn keep<L: Listed<X>>(self, value: &L) -> Board<X>
        requires { L.list value.now ≡ self.next }
        ensures { result ≡ shows self.board self.next }
    {
        let Draft {
            head,
            mut seen,
            pen,
            at: _,
            next,
        } = self;
        conclude(&head, &mut seen, pen, next + 1, value);
        Board {
            head,
            seen,
            count: next + 2,
            at: next,
        }
    }

    /// The next list was not published, and the old one stays.
    pub fn lose<L: Listed<X>>(self, value: &L) -> Board<X>
        requires { L.list value.now ≡ self.old }
        ensures { result ≡ shows self.board self.old }
    {
        let Draft {
            head,
            mut seen,
            pen,
            at,
            next,
        } = self;
        conclude(&head, &mut seen, pen, next + 1, value);
        Board {
            head,
            seen,
            count: next + 2,
            at,
        }
    }
}
