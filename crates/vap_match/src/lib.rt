//! Which requests a policy is for: requests, selectors of labels, and rules.
//!
//! [`Request::from_text`] reads a review, or reports its least fault. What a request asks is within the limits of texts and lists
//! ([`Request::admission`]). It keeps its review, in which its objects stay.
//!
//! [`Selector::from_json`] reads a selector, or reports that the document is none. [`labels_of`] lends the labels of an object, and
//! [`selects`] says whether a selector selects them. Rules have selectors, and so the faults of both are one enum, [`MatchFault`].
//!
//! [`Rules::from_json`] reads what a policy or a binding says, or reports its least fault. [`covers`] says which requests rules cover,
//! and [`matches`] whether rules match a request: they cover it, and they select its namespace ([`selects_namespace`]) and an object
//! of it ([`selects_object`]). What answers a question takes no memory. For a reader of documents that contain rules,
//! [`fault_under`] and [`rules_under`] are the two halves of reading them.
//!
//! Members of documents may be absent or of another form. Some calls test: whether a member is a text, a list of texts, an object of
//! texts, within a limit. The others answer what is there, which is empty if the form is another, so that a reader which has
//! tested a document makes its record without a case left over.
#![tactic(auto)]

mod coverage;
mod form;
mod forms;
mod label_selection;
mod labels;
mod match_fault;
mod open_request;
mod parts;
mod request;
mod request_members;
mod review;
mod review_fault;
mod review_limits;
mod rule_form;
mod rules;
mod same_rules;
mod same_selectors;
mod selection;
mod selector;
mod selector_form;
mod text_limits;
mod texts;

pub use coverage::{covers, is_cluster, names_word};
pub use forms::{
    are_texts, has_items, has_no_items, has_text, has_texts, may_have_named_texts, may_have_text,
    may_have_texts,
};
pub use label_selection::{contains, selects};
pub use labels::{Labels, labels_of};
pub use match_fault::{MatchError, MatchFault};
pub use open_request::{OpenRequest, Subject};
pub use parts::{items_in, items_of, optional_text, text_in, text_of, texts_in, texts_of};
pub use request::{Admission, Kind, Request, Resource, UserInfo};
pub use review_fault::{ReviewError, ReviewFault};
pub use rule_form::{fault_under, rules_under};
pub use rules::{Operation, Rule, Rules, Scope};
pub use selection::{matches, selects_namespace, selects_object};
pub use selector::{Operator, Requirement, Selector};
pub use selector_form::{is_selector, selector_of};
pub use text_limits::{is_short, short_at};
