use base_containers::Failed;
use thiserror::Error;

/// Why a text is not built as a pattern.
#[derive(Clone, Copy, Debug, PartialEq, Eq, Error)]
pub enum PatternFault {
    #[error("a text that is no pattern, or one that is nested too deep")]
    NoPattern,
    #[error("a pattern that takes too much room")]
    TooLarge,
}

/// Why a pattern is not built, or not searched for.
pub type Unbuilt = Failed<PatternFault>;
