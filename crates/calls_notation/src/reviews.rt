//! From the text of a review to its request.

use base_containers::{Part, opened};
use json::Scratch;
use std::alloc::Global;
use vap_match::{Request, ReviewError, ReviewFault};

/// The request of the text of a review. A text that is no JSON is no review.
pub fn request_in(alloc: Global, text: &str) -> Result<Request, ReviewError> {
    let mut scratch = Scratch::new(alloc);
    match opened(alloc, text, &mut scratch)? {
        Some(tape) => Request::from_text(alloc, text, &Part::new(tape.root())),
        None => Err(ReviewError::Fault(ReviewFault::BadReview)),
    }
}
