//! The objects that a log of events leaves, the kinds that are known by them, and params.
//!
//! [`Objects::apply`] takes one event in, which [`Objects::takes`] allows if the limits hold after it. If memory runs out,
//! the objects are as they were. Contracts see objects as the list of them by their keys, and the count of events. Policies,
//! bindings and kinds by their names, objects of a kind and the labels of Namespaces are functions of that list, and are made from
//! it when they are asked for. [`all_miss_rules`], [`all_miss_kind`] and [`misses_key`] answer whether none of some events touches
//! a policy, binding or definition, an object of a kind, or one key: what is made of those alone is the same after such events.
//!
//! [`ReadDefinition`] is a CustomResourceDefinition with the [`Kind`]s that it defines by itself: its schemas are read once.
//! [`kinds_of`] gives the kinds that definitions, in the order of their names, define, after those that are known without a
//! definition. A kind whose schema is refused has no type, and is like one that is unknown; it still comes before those of the same
//! name that a later definition defines. [`find_kind`] looks a kind up.
//!
//! [`KindParams`] are the objects of a kind, each fitted once to its type. [`all_params`] has those of each kind that policies name and
//! that is known ([`kind_of_params`]); [`find_params`] finds those of a kind among them. [`params_after`] makes those after events, and
//! fits what the events touch. They are kept in a [`Table`]: an [`Entry`] for each key, in the order of the keys. Contracts see it as the
//! list of its entries. It is kept in blocks that tables share: [`Table::set`] rebuilds one block, and [`Table::share`] takes as many
//! steps as there are blocks.
#![tactic(auto)]

mod after;
mod blocks;
mod by_name;
mod classes;
mod definition;
mod entry;
mod fitting;
mod fixed_kinds;
mod kind;
mod kind_params;
mod kinds;
mod lists;
mod missed_key;
mod missed_kinds;
mod missed_rules;
mod named;
mod naming;
mod objects;
mod of_kind;
mod read_definition;
mod room;
mod table;
mod tallies;

pub use after::params_after;
pub use blocks::Block;
pub use classes::{is_binding, is_policy};
pub use definition::{is_definition, version_count};
pub use entry::Entry;
pub use fixed_kinds::{config_map_type, namespace_type};
pub use kind::{Kind, find_kind};
pub use kind_params::{KindParams, Outcome, Param, ParamBlock};
pub use kinds::kinds_of;
pub use lists::bindings_of;
pub use missed_key::misses_key;
pub use missed_kinds::{
    all_miss_bindings, all_miss_definitions, all_miss_kind, all_miss_namespaces,
};
pub use missed_rules::all_miss_rules;
pub use named::{all_params, find_params};
pub use naming::kind_of_params;
pub use objects::Objects;
pub use of_kind::{labels_in, namespace};
pub use read_definition::{ReadDefinition, read_all};
pub use table::Table;
