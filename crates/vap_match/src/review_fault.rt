//! Why a review is refused.

ghost use Rattle.std.specs.Prelude.{◌≡◌};
ghost use Rattle.vap_match.specs.ReviewNames.{review_fault_name};

use base_containers::Failed;
use thiserror::Error;

#[derive(Clone, Copy, Debug, PartialEq, Eq, Error)]
pub enum ReviewFault {
    /// A needed member is absent, or something is of a wrong kind.
    #[error("a review that is not understood")]
    BadReview = 1,
    /// A text or a list of the request is longer than it may be.
    #[error("past a limit")]
    OverLimit = 2,
}

impl ReviewFault {
    /// The name that is printed.
    pub fn name(&self) -> &'static str
        ensures { result.now ≡ review_fault_name self.now }
    {
        match self {
            ReviewFault::BadReview => "BadReview",
            ReviewFault::OverLimit => "OverLimit",
        }
    }
}

pub type ReviewError = Failed<ReviewFault>;
