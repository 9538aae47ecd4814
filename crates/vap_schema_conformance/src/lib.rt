//! Why a document is no value of a type, where its value is not needed.
//!
//! [`fault_of`] answers the first fault that a document has at a type, as `vap_schema::fit` reports it, or that it has none. It makes no
//! value: most documents are values, and that is found without their paths and copies of their texts.
#![tactic(auto)]

mod conformance;
mod scalars;

pub use conformance::fault_of;
