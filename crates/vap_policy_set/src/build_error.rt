//! Why no set is built.

use base_containers::{Failed, Text};

#[derive(Drop)]
pub enum BuildFault {
    /// The verifier refused an image that was compiled for the policy of this name.
    Unverified { policy: Text },
}

/// Why no set is built.
pub type BuildError = Failed<BuildFault>;
