//! How long the reviews of a history take.

use crate::judging::Bench;
use std::alloc::{AllocError, Global};
use std::time::{Clock, Duration, Instant};
use vap_audit::{Entry, History};
use vap_watch::Log;

/// The least time of a review, the time that half of them take at most, the time that 99 of 100 take at most, and the most, in
/// nanoseconds.
#[derive(Clone, Copy, Debug, PartialEq, Eq)]
pub struct Times {
    pub least: u64,
    pub median: u64,
    pub most_but_one_of_100: u64,
    pub most: u64,
}

fn nanos_of(time: Duration) -> u64 {
    time.as_secs()
        .saturating_mul(1_000_000_000)
        .saturating_add(u64::from(time.subsec_nanos()))
}

fn take_events(bench: &mut Bench, log: &Log, from: usize) -> Result<(), AllocError> {
    for place in from..log.len() {
        bench.take(log.at(place).event.copy()?)?;
    }
    bench.publish()
}

/// The time of one judgement, if there is a clock.
fn time_of<R: Clock>(rt: &R, bench: &mut Bench, entry: &Entry) -> Result<Option<u64>, AllocError> {
    let begun = Instant::now(rt);
    let _verdict = bench.judge(entry)?;
    match (begun, Instant::now(rt)) {
        (Ok(begun), Ok(ended)) => Ok(Some(nanos_of(ended.saturating_duration_since(begun)))),
        _ => Ok(None),
    }
}

fn all_times<R: Clock>(rt: &R, alloc: Global, history: &History) -> Result<Vec<u64>, AllocError> {
    let mut bench = Bench::new(alloc)?;
    let mut times = Vec::new(alloc);
    let mut taken = 0;
    for number in 0..history.len() {
        let entry = history.at(number);
        let log = entry.log.get();
        if taken < log.len() {
            take_events(&mut bench, log, taken)?;
            taken = log.len();
        }
        if let Some(time) = time_of(rt, &mut bench, entry)? {
            times.push(time)?;
        }
    }
    Ok(times)
}

/// The time at a place among times in order.
fn at(times: &[u64], place: usize) -> u64 {
    match times.get(place) {
        Some(time) => *time,
        None => 0,
    }
}

/// How long the reviews of a history take, each judged by itself; none if there is no review, or no clock.
pub fn times_of<R: Clock>(
    rt: &R,
    alloc: Global,
    history: &History,
) -> Result<Option<Times>, AllocError> {
    let mut times = all_times(rt, alloc, history)?;
    times.sort_unstable();
    let times = times.as_slice();
    let Some(last) = times.len().checked_sub(1) else {
        return Ok(None);
    };
    Ok(Some(Times {
        least: at(times, 0),
        median: at(times, last / 2),
        most_but_one_of_100: at(times, last - last / 100),
        most: at(times, last),
    }))
}
