//! What a reader learns.

use crate::log::Logged;

/// Names a published log. Contracts see it as the board of its writer and the log.
pub type Told = crate::note::Told<Logged>;
