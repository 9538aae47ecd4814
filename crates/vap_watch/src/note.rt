//! Notes of what is on a board.

ghost use Rattle.std.specs.Prelude.{◌≡◌, ◌⊎◌, ◌<◌, true, length};
ghost use Rattle.vap_watch.specs.Begins.{StartsWith};
ghost use Rattle.vap_watch.specs.Entries.{IsTold, nth};
ghost use Rattle.vap_watch.specs.Shown.{shows};

use crate::board_rule::Grows;
use crate::entry::Entry;
use logbook::Seen;
use std::marker::Model;

/// The board has this list at this number, perhaps before it is published. Contracts see it as the board and the list.
#[derive(Drop)]
pub struct Note<X> {
    seen: Seen<Entry<X>, u64, Grows>,
    at: u64,
}

impl<X> Model for Note<X> {
    ghost use Rattle.std.specs.Prelude.{◌<◌, length};
    ghost use Rattle.vap_watch.specs.Entries.{nth};
    ghost use Rattle.vap_watch.specs.Shown.{Shown, shown_code, shows};

    ghost Value = { Shown X };

    ghost coded = { shown_code X.code };

    ghost view = { λ s. shows s.seen.book (nth s.seen.log s.at).list };

    ghost invariant = { λ s. s.at < length s.seen.log };
}

impl<X> Note<X> {
    pub(crate) fn new(seen: Seen<Entry<X>, u64, Grows>, at: u64) -> Note<X>
        requires { at < length seen.log }
        ensures { result ≡ shows seen.book (nth seen.log at).list }
    {
        Note { seen, at }
    }

    /// A copy.
    pub fn again(&self) -> Note<X>
        ensures { result ≡ self.now }
    {
        Note {
            seen: self.seen.again(),
            at: self.at,
        }
    }

    /// Whether both are of one number of the board that both are of. They are then of one list.
    pub fn same(&self, other: &Note<X>) -> bool
        requires { other.now.board ≡ self.now.board }
        ensures { result ≡ true → other.now ≡ self.now }
    {
        let mut both = self.seen.again();
        both.learn(&other.seen);
        self.at == other.at
    }
}

/// The list was published. Contracts see it as the board and the list.
#[derive(Drop)]
pub struct Told<X> {
    seen: Seen<Entry<X>, u64, Grows>,
    at: u64,
}

impl<X> Model for Told<X> {
    ghost use Rattle.vap_watch.specs.Entries.{IsTold, nth};
    ghost use Rattle.vap_watch.specs.Shown.{Shown, shown_code, shows};

    ghost Value = { Shown X };

    ghost coded = { shown_code X.code };

    ghost view = { λ s. shows s.seen.book (nth s.seen.log s.at).list };

    ghost invariant = { λ s. IsTold s.seen.log s.at };
}

impl<X> Told<X> {
    pub(crate) fn new(seen: Seen<Entry<X>, u64, Grows>, at: u64) -> Told<X>
        requires { IsTold seen.log at }
        ensures { result ≡ shows seen.book (nth seen.log at).list }
    {
        Told { seen, at }
    }

    /// A copy.
    pub fn again(&self) -> Told<X>
        ensures { result ≡ self.now }
    {
        Told {
            seen: self.seen.again(),
            at: self.at,
        }
    }

    /// Whether the note's list is no earlier on the board that both are of. It then begins with this one.
    pub fn begins(&self, note: &Note<X>) -> bool
        requires { note.now.board ≡ self.now.board }
        ensures { result ≡ true → StartsWith note.now.list self.now.list }
    {
        let mut both = self.seen.again();
        both.learn(&note.seen);
        self.at <= note.at
    }

    /// The later of two of one board, which begins with the other.
    pub fn later(self, other: Told<X>) -> Told<X>
        requires { other.board ≡ self.board }
        ensures one { (result ≡ self) ⊎ (result ≡ other) }
        ensures this { StartsWith result.list self.list }
        ensures that { StartsWith result.list other.list }
    {
        let mut both = self.seen.again();
        both.learn(&other.seen);
        if self.at <= other.at { other } else { self }
    }
}
