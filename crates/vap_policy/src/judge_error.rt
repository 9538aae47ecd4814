//! Why there is no verdict.

use cel_machine::RunError;

/// Why there is no verdict: memory runs out, or a pattern that was built before is not built again.
pub type JudgeError = RunError;
