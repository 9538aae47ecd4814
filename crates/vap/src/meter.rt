//! One line on a terminal that reports how far a replay is, and what it resulted in.

use std::mem;
use std::time::{Clock, Duration, Instant};
use vap_audit::History;
use vap_cli_replay::Progress;
use vap_cli_report::summary_of;

/// The least time between two updates, in seconds.
const PAUSE: u64 = 1;

/// Reports on standard error how far a replay is, once a second, if somebody watches, and at the end what it resulted in, if that is
/// asked for.
#[derive(Drop)]
pub struct Meter<'a, R> {
    rt: &'a R,
    is_watched: bool,
    has_summary: bool,
    begun: Option<Instant>,
    last: Option<Instant>,
}

impl<'a, R: Clock + Eprint + AllocGlobal> Meter<'a, R> {
    pub fn new(rt: &'a R, is_watched: bool, has_summary: bool) -> Meter<'a, R> {
        Meter {
            rt,
            is_watched,
            has_summary,
            begun: None,
            last: None,
        }
    }

    /// The time since the first update, if it is time for another. If there is no clock, it never is.
    fn due(&mut self) -> Option<Duration> {
        let now = Instant::now(self.rt).ok()?;
        if let Some(last) = self.last {
            if now.saturating_duration_since(last) < Duration::from_secs(PAUSE) {
                return None;
            }
        }
        self.last = Some(now);
        let begun = self.begun.unwrap_or(now);
        self.begun = Some(begun);
        Some(now.saturating_duration_since(begun))
    }

    /// Ends the line, if one was begun. What cannot be written is left out.
    fn end(&mut self) {
        if self.last.take().is_some() {
            let _ = eprintln!(self.rt; "");
        }
    }

    fn tell(&self, history: &History) {
        match summary_of(self.rt, self.rt.alloc(), history) {
            Ok(summary) => {
                let _ = eprint!(self.rt; "{}", summary.as_str());
            }
            Err(_) => {
                let _ = eprintln!(self.rt; "vap: there is no memory for the summary");
            }
        }
    }
}

/// How many of these came per second, in this much time.
fn rate_of(count: usize, time: Duration) -> u64 {
    (count as u64).checked_div(time.as_secs()).unwrap_or(0)
}

impl<'a, R: Clock + Eprint + AllocGlobal> Progress for Meter<'a, R> {
    fn reached(&mut self, lines: u64, reviews: usize, revision: usize) {
        if !self.is_watched {
            return;
        }
        if let Some(time) = self.due() {
            let rate = rate_of(reviews, time);
            let _ = eprint!(self.rt;
                "\r{lines} lines, {rate} reviews a second, revision {revision}\x1b[K"
            );
        }
    }

    fn replayed(&mut self, history: History) {
        self.end();
        if self.has_summary {
            self.tell(&history);
        }
        // The program is about to end, and all memory goes with it: to let go of each entry would only take time.
        mem::forget(history);
    }
}
