//! Which objects are the params of a policy under a binding.

ghost use Rattle.std.specs.Prelude.{◌≡◌, map};
ghost use Rattle.std.specs.List.{list_any};
ghost use Rattle.std.specs.Option.{option_copied};
ghost use Rattle.vap_policy_set.specs.Sets.{params_in};
ghost use Rattle.vap_policy.specs.Params.{is_chosen, is_in, is_param, place_of};
ghost use Rattle.vap_policy.specs.Shown.{lent_place, lent_place_of};

use base_containers::{Part, Shared};
use vap_match::{labels_of, selects};
use vap_policy_set::PolicySet;
use vap_read::{Object, ParamKind, ParamRef};
use vap_read_objects::{KindParams, Param};

/// Where params are looked for.
#[derive(Clone, Copy)]
pub enum Place<'a> {
    Cluster,
    Namespace(&'a str),
}

/// Where the params of a kind are looked for, by the namespace that is given and the request's, each of which may be empty: the first
/// that is not. Nowhere, if a namespace is given and the kind is in none, or the kind is in namespaces and both are empty.
pub fn place_of<'a>(namespaced: bool, given: &'a str, requested: &'a str) -> Option<Place<'a>>
    ensures { lent_place_of result ≡ place_of namespaced given.now requested.now }
{
    match (namespaced, given.is_empty(), requested.is_empty()) {
        (false, true, _) => Some(Place::Cluster),
        (false, false, _) => None,
        (true, false, _) => Some(Place::Namespace(given)),
        (true, true, false) => Some(Place::Namespace(requested)),
        (true, true, true) => None,
    }
}

fn is_in(place: Place<'_>, namespace: &str) -> bool
    ensures { result ≡ is_in (lent_place place.entry) namespace.now }
{
    match place {
        Place::Cluster => true,
        Place::Namespace(wanted) => namespace == wanted,
    }
}

fn is_chosen(reference: &ParamRef, object: &Object) -> bool
    ensures { result ≡ is_chosen reference.now.name reference.now.selector object.now }
{
    match &reference.name {
        Some(name) => object.key.name.as_str() == name.as_str(),
        None => match &reference.selector {
            Some(selector) => selects(selector, &labels_of(&Part::of_tree(object.document.json()))),
            None => false,
        },
    }
}

/// What a binding chooses among the objects of a kind in a place.
#[derive(Clone, Copy)]
pub struct Selection<'a> {
    pub place: Place<'a>,
    pub reference: &'a ParamRef,
    pub params: &'a KindParams,
}

impl Selection<'_> {
    /// Whether an object is a param.
    pub fn takes(&self, object: &Object) -> bool
        ensures { result ≡ is_param (lent_place self.now.place) self.now.reference.now object.now }
    {
        is_in(self.place, object.key.namespace.as_str()) && is_chosen(self.reference, object)
    }

    /// Whether one of some objects is a param.
    fn takes_one_of(&self, params: &[Shared<Param>]) -> bool
        ensures { result ≡ list_any (is_param (lent_place self.now.place) self.now.reference.now) (map (λ p. p.object) params.now) }
    {
        for param in params {
            if self.takes(param.get().object.get()) {
                return true;
            }
        }
        false
    }

    /// Whether one of the objects of the kind is a param.
    pub fn takes_one(&self) -> bool
        ensures { result ≡ list_any (is_param (lent_place self.now.place) self.now.reference.now) self.now.params.now.objects }
    {
        for block in self.params.blocks() {
            if self.takes_one_of(block.get().as_slice()) {
                return true;
            }
        }
        false
    }
}

/// The params of the kind that a policy names, if it names one that is known.
pub fn params_of<'a>(set: &'a PolicySet, kind: &Option<ParamKind>) -> Option<&'a KindParams>
    ensures { option_copied result ≡ params_in set.now kind.now }
{
    match kind {
        Some(kind) => set.params_of(kind),
        None => None,
    }
}
