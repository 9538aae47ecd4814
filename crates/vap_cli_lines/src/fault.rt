//! Why a line is refused.

ghost use Rattle.std.specs.Prelude.{◌≡◌};
ghost use Rattle.vap_cli_lines.specs.Faults.{line_fault_name};

use thiserror::Error;
use vap_match::ReviewFault;
use vap_plane_gathering::PlaneFault;
use vap_read::EventFault;

/// Why a line is refused.
#[derive(Clone, Copy, Debug, PartialEq, Eq, Error)]
pub enum LineFault {
    #[error("a line that is too long")]
    TooLong,
    #[error("a line that is no JSON")]
    BadJson,
    #[error("a line that is neither an event nor a review")]
    UnknownLine,
    #[error("{0}")]
    OfEvent(EventFault),
    #[error("{0}")]
    OfReview(ReviewFault),
    #[error("the log has as many events as it may have")]
    LogFull,
    #[error("there would be more objects than there may be")]
    TooManyObjects,
    #[error("the history has as many entries as it may have")]
    AuditFull,
    /// An event's set is not built: the verifier refused an image that was compiled for a policy.
    #[error("an expression's code is not accepted")]
    Unverified,
    /// A pattern that was built when the set was built is not built again. The line is the first of a group of reviews.
    #[error("a pattern is not built again")]
    Pattern,
    /// A review of a group was judged at another log than that of the events before it, or the history of the workers is not what
    /// they answered. The line is the first of the group.
    #[error("an answer that is not of the events before it")]
    Stray,
    /// A worker has no reader. The line is 0.
    #[error("there are as many readers as there may be")]
    NoPlace,
    /// A review of a group is not answered. The line is the first of the group.
    #[error("{0}")]
    OfWorkers(PlaneFault),
}

impl LineFault {
    /// The name that is printed: for a fault of an event, a review or workers it is that of the innermost fault.
    pub fn name(&self) -> &'static str
        ensures { result.now ≡ line_fault_name self.now }
    {
        match self {
            LineFault::TooLong => "TooLong",
            LineFault::BadJson => "BadJson",
            LineFault::UnknownLine => "UnknownLine",
            LineFault::OfEvent(fault) => fault.name(),
            LineFault::OfReview(fault) => fault.name(),
            LineFault::LogFull => "LogFull",
            LineFault::TooManyObjects => "TooManyObjects",
            LineFault::AuditFull => "AuditFull",
            LineFault::Unverified => "Unverified",
            LineFault::Pattern => "Pattern",
            LineFault::Stray => "Stray",
            LineFault::NoPlace => "NoPlace",
            LineFault::OfWorkers(fault) => fault.name(),
        }
    }
}
