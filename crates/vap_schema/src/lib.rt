//! From a schema to a type, from a document to a value of the type, and where the first fault of a schema is.
//!
//! [`Schema::from_json`] reads the schema of a kind, or reports its first fault, and [`Schema::object_type`] is the type
//! of the kind's objects. [`root_form`] and [`nested_form`] are what one schema says by its own keywords; those of the schemas inside
//! it are not read. All that reads schemas reads them by these. [`metadata_type`] is the type of every object's metadata, and
//! [`with_fixed_fields`] a root's type with the fields that each object has. For a document that is no schema, [`fault_place`] answers
//! which fault [`Schema::from_json`] reports, and the names that lead there.
//!
//! [`fit`] answers the value that a document is at a type, or the document's first fault with its path. What it answers
//! fits the type, and so weighs no more than the type allows.
#![tactic(auto)]

mod fit_fault;
mod fixed_types;
mod form;
mod in_step;
mod keywords;
mod own_fault;
mod path;
mod place;
mod refusals;
mod scalars;
mod schema;
mod schema_fault;
mod values;

pub use fit_fault::{FitError, FitFault, FitFaultKind};
pub use fixed_types::{metadata_type, with_fixed_fields};
pub use form::{Form, nested_form, root_form};
pub use own_fault::{Keyword, OwnFault};
pub use place::{FaultPlace, fault_place};
pub use schema::Schema;
pub use schema_fault::{SchemaError, SchemaFault};
pub use values::fit;
