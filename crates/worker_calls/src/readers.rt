//! Readers: how many there may be at a time, what one keeps while another thread publishes, what it sees of what it was told, and what
//! it finds when the writer has ended.
//!
//! `placed` has a writer with as many places as the first number of `with` says, and takes readers until one is refused; those are all
//! kept, and then dropped, and it takes readers once more. `kept` has a thread keep what it saw at revision 1 while another publishes
//! twice more. `told` publishes so many times, has a reader learn each publication, and enters. `gone` enters when the writer has ended.

ghost use Rattle.std.specs.Prelude.{◌≡◌, ◌≤◌, IfOk};

use crate::workers::MOST_SLEEPS;
use calls_notation::{Asked, unknown};
use std::alloc::{AllocError, Global};
use std::sync::Wait;
use std::sync::atomic::{AtomicU64, Ordering};
use std::thread;
use std::thread::{Threads, join};
use std::time::{Clock, Duration};
use vap_read::Event;
use vap_watch::{Reader, ReaderError, ReaderFault, ReaderSource, Writer, open, revision_of};

/// The answer to a call of readers.
pub fn answer<R: Threads + Wait + Clock + Sync>(
    rt: &R,
    alloc: Global,
    asked: &Asked,
) -> Result<String, AllocError> {
    let number = asked.number(0);
    match asked.call {
        "placed" if number >= 1 && number <= 16 => placed(rt, alloc, number as usize),
        "kept" => kept(rt, alloc),
        "told" => told(rt, alloc, number),
        "gone" => gone(rt, alloc),
        _ => unknown(alloc),
    }
}

/// Publishes so many events that pass by, and answers the revision.
fn publish<R: Wait>(rt: &R, writer: &mut Writer, events: u64) -> Result<usize, AllocError>
    ensures { writer.new.board ≡ writer.old.board }
{
    for _event in 0..events {
        if writer.stage(Event::Passed).is_err() {
            return Err(AllocError);
        }
    }
    match writer.publish(rt) {
        Ok(revision) => Ok(revision),
        Err(_) => Err(AllocError),
    }
}

/// How many readers there are at a time, and why there is none more, twice.
fn placed<R: Wait>(rt: &R, alloc: Global, places: usize) -> Result<String, AllocError>
    requires { (1 ≤ places) × (places ≤ 16) }
{
    let (writer, source) = open(rt, alloc, places)?;
    let told = placed_twice(alloc, &source);
    writer.end(rt);
    told
}

fn placed_twice(alloc: Global, source: &ReaderSource) -> Result<String, AllocError> {
    let mut out = String::new(alloc);
    for _time in 0..2u64 {
        let (readers, error) = taken(alloc, source)?;
        if error == ReaderError::OutOfMemory {
            return Err(AllocError);
        }
        write!(out, "{} readers, then {error}; ", readers.len())?;
    }
    Ok(out)
}

/// All readers that there may be, and why there is none more.
fn taken(alloc: Global, source: &ReaderSource) -> Result<(Vec<Reader>, ReaderError), AllocError> {
    let mut readers = Vec::new(alloc);
    for _turn in 0..64u64 {
        match source.reader() {
            Ok(reader) => readers.push(reader)?,
            Err(error) => return Ok((readers, error)),
        }
    }
    Err(AllocError)
}

/// What a thread kept while another published, and what this one published.
fn kept<R: Threads + Wait + Clock + Sync>(rt: &R, alloc: Global) -> Result<String, AllocError> {
    let (mut writer, source) = open(rt, alloc, 16)?;
    let told = keep_beside(rt, alloc, &mut writer, &source);
    writer.end(rt);
    told
}

fn keep_beside<R: Threads + Wait + Clock + Sync>(
    rt: &R,
    alloc: Global,
    writer: &mut Writer,
    source: &ReaderSource,
) -> Result<String, AllocError> {
    publish(rt, writer, 1)?;
    let Ok(reader) = source.reader() else {
        return Err(AllocError);
    };
    let meeting = Meeting::new();
    let meeting = &meeting;
    let (kept, published) = join(
        rt,
        move || keep(rt, meeting, reader),
        || publish_twice(rt, meeting, writer),
    );
    let (first, then) = published?;
    let kept = kept?;
    let mut out = String::new(alloc);
    write!(out, "published {first} and {then}, kept {kept}")?;
    if meeting.is_missed() {
        out.push_str(", and one waited in vain")?;
    }
    Ok(out)
}

/// Sees what is published, and keeps it until the other thread has published twice: its revision then.
fn keep<R: Wait + Clock>(
    rt: &R,
    meeting: &Meeting,
    mut reader: Reader,
) -> Result<usize, AllocError> {
    let seen = reader.enter();
    meeting.arrive();
    meeting.wait(rt, 3);
    match seen {
        Ok(snapshot) => Ok(revision_of(&snapshot)),
        Err(_) => Err(AllocError),
    }
}

/// Publishes revisions 3 and 4 when the other thread has seen what was published before.
fn publish_twice<R: Wait + Clock>(
    rt: &R,
    meeting: &Meeting,
    writer: &mut Writer,
) -> Result<(usize, usize), AllocError> {
    meeting.wait(rt, 1);
    let first = publish(rt, writer, 2);
    meeting.arrive();
    let then = publish(rt, writer, 1);
    meeting.arrive();
    Ok((first?, then?))
}

/// Two threads that wait for one another, for at most 10,000 sleeps of a millisecond.
#[derive(Drop)]
struct Meeting {
    here: AtomicU64,
    missed: AtomicU64,
}

impl Meeting {
    fn new() -> Meeting {
        Meeting {
            here: AtomicU64::new(0),
            missed: AtomicU64::new(0),
        }
    }

    fn arrive(&self) {
        self.here.fetch_add(1, Ordering::SeqCst);
    }

    /// Waits until so many have arrived.
    fn wait<R: Clock>(&self, rt: &R, many: u64) {
        for _sleep in 0..MOST_SLEEPS {
            if self.here.load(Ordering::SeqCst) >= many {
                return;
            }
            thread::sleep(rt, Duration::from_millis(1));
        }
        self.missed.fetch_add(1, Ordering::SeqCst);
    }

    fn is_missed(&self) -> bool {
        self.missed.load(Ordering::SeqCst) > 0
    }
}

/// The revisions that a reader sees of so many publications, each of which it is told.
fn told<R: Wait>(rt: &R, alloc: Global, times: u64) -> Result<String, AllocError> {
    let (mut writer, source) = open(rt, alloc, 1)?;
    let told = match source.reader() {
        Ok(mut reader) => told_each(rt, alloc, &mut writer, &mut reader, times),
        Err(_) => Err(AllocError),
    };
    writer.end(rt);
    told
}

fn told_each<R: Wait>(
    rt: &R,
    alloc: Global,
    writer: &mut Writer,
    reader: &mut Reader,
    times: u64,
) -> Result<String, AllocError>
    requires { reader.old.board ≡ writer.old.board }
{
    let mut out = String::new(alloc);
    for _time in 0..times {
        publish(rt, writer, 1)?;
        reader.learn(writer.tell());
        let Ok(snapshot) = reader.enter() else {
            return Err(AllocError);
        };
        write!(out, "{} ", revision_of(&snapshot))?;
    }
    Ok(out)
}

/// What a reader finds when the writer has ended.
fn gone<R: Wait>(rt: &R, alloc: Global) -> Result<String, AllocError> {
    let (writer, source) = open(rt, alloc, 1)?;
    let reader = source.reader();
    writer.end(rt);
    let Ok(mut reader) = reader else {
        return Err(AllocError);
    };
    let mut out = String::new(alloc);
    match reader.enter() {
        Ok(snapshot) => write!(out, "at {}", revision_of(&snapshot))?,
        Err(ReaderError::Fault(ReaderFault::Gone)) => out.push_str("gone")?,
        Err(_) => return Err(AllocError),
    }
    Ok(out)
}
