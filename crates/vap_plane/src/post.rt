//! The way of a batch's requests to its workers, and of their answers back.

use crate::jobs::{Batch, Job};
use crate::messages::{Answers, Failure, Reply};
use crossbeam_channel::{Receiver, Sender};
use std::alloc::AllocError;
use std::sync::Wait;
use std::sync::atomic::{AtomicBool, Ordering};

/// Where workers take jobs and leave replies. If a reply could not be left, this is noted, so that it does not seem that there
/// never was one.
#[derive(Drop)]
pub(crate) struct Post<B: Batch> {
    jobs: Receiver<Job<B>>,
    replies: Sender<Reply<B>>,
    is_short: AtomicBool,
}

impl<B: Batch> Post<B> {
    pub(crate) fn new(jobs: Receiver<Job<B>>, replies: Sender<Reply<B>>) -> Post<B> {
        Post {
            jobs,
            replies,
            is_short: AtomicBool::new(false),
        }
    }

    /// The next job, if there is one.
    pub(crate) fn take<R: Wait>(&self, rt: &R) -> Option<Job<B>> {
        self.jobs.recv(rt).ok()
    }

    /// Leaves the answers of a worker, if there are some.
    pub(crate) fn leave<R: Wait>(&self, rt: &R, answers: Answers<B>) -> Result<(), AllocError> {
        if answers.is_empty() {
            return Ok(());
        }
        self.send(rt, Reply::Answered(answers))
    }

    /// Leaves the failure of a request that is not answered.
    pub(crate) fn refuse<R: Wait>(&self, rt: &R, failure: Failure) -> Result<(), AllocError> {
        self.send(rt, Reply::Failed(failure))
    }

    fn send<R: Wait>(&self, rt: &R, reply: Reply<B>) -> Result<(), AllocError> {
        if self.replies.send(rt, reply).is_err() {
            return Err(AllocError);
        }
        Ok(())
    }

    /// Notes that a worker ran out of memory.
    pub(crate) fn note_short(&self) {
        self.is_short.store(true, Ordering::SeqCst);
    }

    pub(crate) fn is_short(&self) -> bool {
        self.is_short.load(Ordering::SeqCst)
    }
}
