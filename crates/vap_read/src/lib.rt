//! Policies, bindings and events, as they are read.
//!
//! [`Policy::from_json`] reads a ValidatingAdmissionPolicy object and [`Binding::from_json`] a ValidatingAdmissionPolicyBinding object, or
//! reports its least fault: the faults of both are one enum, [`PolicyFault`]. The expressions of a policy stay texts.
//!
//! [`line_kind`] answers which kind a line is of. An [`EventReader`] serves for the lines of a stream: it reads a watch event, a
//! List, or a line of any kind, and reports the fault of what is no event; [`Event::from_json`] reads one line alone. An event puts
//! an object under its [`Key`], takes one away, changes nothing, or replaces all objects: a List holds its items by their keys
//! already, as an [`ObjectMap`]. An object keeps its [`Document`] and what it was read as, a policy or a binding, and may have several
//! owners: a copy of an event is one more.
#![tactic(auto)]

mod binding;
mod binding_document;
mod binding_form;
mod counts;
mod document;
mod event;
mod event_fault;
mod event_reader;
mod key;
mod line;
mod messages;
mod names;
mod object;
mod object_form;
mod object_map;
mod policy;
mod policy_document;
mod policy_fault;
mod policy_form;
mod same_bindings;
mod same_documents;
mod same_events;
mod same_policies;
mod watch_events;

pub use binding::{Binding, BindingSpec, NotFoundAction, ParamRef, ValidationActions};
pub use document::Document;
pub use event::Event;
pub use event_fault::{EventError, EventFault};
pub use event_reader::EventReader;
pub use key::Key;
pub use line::{LineKind, line_kind};
pub use object::{Content, Object};
pub use object_map::ObjectMap;
pub use policy::{
    AuditAnnotation, FailurePolicy, NamedExpression, ParamKind, Policy, PolicySpec, Reason,
    Validation,
};
pub use policy_fault::{PolicyError, PolicyFault};
