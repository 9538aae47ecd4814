//! The requests of one batch, on their way to workers.

ghost use Rattle.std.specs.Prelude.{◌≡◌, List, [], slice_get, Some};
ghost use Rattle.vap_watch.specs.Shown.{Shown};
ghost use Rattle.vap_match.specs.declared.request.Request.{Request as RequestOf};
ghost use Rattle.vap_watch.specs.declared.log.Logged.{Logged as LoggedOf};

use std::marker::{Brand, PhantomData};
use vap_match::Request;
use vap_watch::Told;

/// The requests that are judged together, and what the workers are told before.
pub trait Batch {
    ghost requests: { List RequestOf };

    ghost told: { List (Shown LoggedOf) };
}

impl Batch for Brand {
    ghost requests = { [] };

    ghost told = { [] };
}

/// A request with its number among those of its batch, and its call.
#[derive(Drop)]
pub(crate) struct Job<B: Batch> {
    pub(crate) number: u64,
    pub(crate) call: u64,
    pub(crate) request: Request,
    of: PhantomData<B>,
    ghost asked: { slice_get B.requests number ≡ Some request },
}

impl<B: Batch> Job<B> {
    pub(crate) fn new(number: u64, call: u64, request: Request) -> Job<B>
        requires { slice_get B.requests number ≡ Some request }
    {
        Job {
            number,
            call,
            request,
            of: PhantomData,
        }
    }
}

/// Requests that are judged together, whose calls are numbered from `first`, and what each worker is told before.
#[derive(Drop)]
pub(crate) struct Round {
    pub(crate) first: u64,
    pub(crate) requests: Vec<Request>,
    pub(crate) told: Vec<Told>,
}
