//! Resources of groups, and which of them rules name.

ghost use Rattle.std.specs.Prelude.{◌≡◌, ◌++◌, ◌∷◌, [], ℕ, List, true, IfOk, IsTrue, OnOk};
ghost use Rattle.std.proofs.Common.{rules};
ghost use Rattle.std.specs.Cmp.{partial_order_from_own_ties, partial_equiv_from_equiv};
ghost use Rattle.std.specs.Cmp.Rules.{comparing};
ghost use Rattle.std.specs.List.{flat_map, list_any};
ghost use Rattle.std.specs.List.Sorted.{IsStrictlySortedBy};
ghost use Rattle.std.specs.Ordering.{as_partial_cmp, eq_by_cmp};
ghost use Rattle.vap_policy_set.specs.PlaceOrder.{place_cmp};
ghost use Rattle.vap_policy_set.specs.Places.{AreNamedBy, NameSame, group_places, is_place, rule_places};

use crate::params::resource_in;
use base_containers::{Items, Text};
use std::alloc::{AllocError, Global};
use std::cmp::Ordering;
use std::marker::Model;
use vap_match::Rule;

/// A resource of a group.
#[derive(Drop)]
pub struct Place {
    pub group: Text,
    pub resource: Text,
}

/// A resource of a group, as a rule names it. Contracts see the place.
#[derive(Drop)]
pub struct NamedPlace<'a> {
    group: &'a str,
    resource: &'a str,
}

impl<'a> Model for NamedPlace<'a> {
    ghost use Rattle.std.specs.Coded.{codes};
    ghost use Rattle.vap_policy_set.specs.contracts.places.Place as of_places;
    ghost use Rattle.vap_policy_set.specs.declared.places.Place.{Place};

    ghost Value = { Place };

    ghost coded = { Prim.hlevel (codes, of_places.the_row.coded) };

    ghost view = { λ k. record { group = k.group.now; resource = k.resource.now } };
}

impl PartialEq for NamedPlace<'_> {
    ghost eq = { eq_by_cmp place_cmp };

    ghost laws = { partial_equiv_from_equiv (Prim.search (comparing, rules) depth 12) };

    fn eq(&self, other: &Self) -> bool {
        self.cmp(other).is_eq()
    }
}

impl Eq for NamedPlace<'_> {
    ghost laws = { Prim.search (comparing, rules) depth 12 };
}

impl PartialOrd for NamedPlace<'_> {
    ghost partial_cmp = { as_partial_cmp place_cmp };

    ghost laws = { partial_order_from_own_ties (Prim.search (comparing, rules) depth 12) (Prim.search (comparing, rules) depth 12) };

    fn partial_cmp(&self, other: &Self) -> Option<Ordering> {
        Some(self.cmp(other))
    }
}

impl Ord for NamedPlace<'_> {
    ghost cmp = { place_cmp };

    ghost total = { Prim.search (comparing, rules) depth 12 };

    ghost matches_partial_cmp = { Prim.search (comparing, rules) depth 12 };

    ghost matches_eq = { Prim.search (comparing, rules) depth 12 };

    fn cmp(&self, other: &Self) -> Ordering {
        self.group
            .cmp(other.group)
            .then(self.resource.cmp(other.resource))
    }
}

impl<'a> NamedPlace<'a> {
    /// The place of this resource of this group.
    pub fn new(group: &'a str, resource: &'a str) -> NamedPlace<'a>
        ensures { result ≡ record { group = group.now; resource = resource.now } }
    {
        NamedPlace { group, resource }
    }

    /// The place with texts of its own.
    pub fn owned(&self, alloc: Global) -> Result<Place, AllocError>
        ensures { IfOk result (λ k. k ≡ self.now) }
    {
        Ok(Place {
            group: Text::from_str(alloc, self.group)?,
            resource: Text::from_str(alloc, self.resource)?,
        })
    }

    /// Whether it is this resource of this group.
    fn is_place(&self, group: &str, resource: &str) -> bool
        ensures { result ≡ is_place group.now resource.now self.now }
    {
        self.group == group && self.resource == resource
    }
}

/// Whether the last of some places is this resource of this group.
fn is_last(places: &[NamedPlace<'_>], group: &str, resource: &str) -> bool
    ensures { IsTrue result → list_any (is_place group.now resource.now) places.now ≡ true }
{
    match places {
        [.., last] => last.is_place(group, resource),
        [] => false,
    }
}

/// Puts a place after others, unless it is the last of them.
fn put_place<'a>(
    group: &'a str,
    resource: &'a str,
    places: &mut Vec<NamedPlace<'a>>,
) -> Result<(), AllocError>
    ensures { OnOk result (NameSame places.new.items
        (places.old.items ++ record { group = group.now; resource = resource.now } ∷ [])) }
{
    if is_last(places.as_slice(), group, resource) {
        return Ok(());
    }
    places.push(NamedPlace::new(group, resource))?;
    Ok(())
}

fn put_group<'a>(
    patterns: &'a [Text],
    group: &'a str,
    places: &mut Vec<NamedPlace<'a>>,
) -> Result<(), AllocError>
    ensures { OnOk result (NameSame places.new.items (places.old.items ++ group_places patterns.now group.now)) }
{
    for pattern in patterns {
        put_place(group, resource_in(pattern.as_str()), places)?;
    }
    Ok(())
}

fn put_rule<'a>(rule: &'a Rule, places: &mut Vec<NamedPlace<'a>>) -> Result<(), AllocError>
    ensures { OnOk result (NameSame places.new.items (places.old.items ++ rule_places rule.now)) }
{
    for group in rule.api_groups.as_slice() {
        put_group(rule.resources.as_slice(), group.as_str(), places)?;
    }
    Ok(())
}

/// Puts the places that rules name after others.
fn put_rules<'a>(rules: &'a [Rule], places: &mut Vec<NamedPlace<'a>>) -> Result<(), AllocError>
    ensures { OnOk result (NameSame places.new.items (places.old.items ++ flat_map rule_places rules.now)) }
{
    for rule in rules {
        put_rule(rule, places)?;
    }
    Ok(())
}

/// Puts places after others.
pub fn put_places<'a>(
    named: &'a [Place],
    places: &mut Vec<NamedPlace<'a>>,
) -> Result<(), AllocError>
    ensures { OnOk result (NameSame places.new.items (places.old.items ++ named.now)) }
{
    for place in named {
        put_place(place.group.as_str(), place.resource.as_str(), places)?;
    }
    Ok(())
}

/// Puts places in order, each once.
pub fn put_in_order(places: &mut Vec<NamedPlace<'_>>)
    ensures ordered { IsStrictlySortedBy place_cmp places.new.items }
    ensures same { (group resource : List ℕ)
        → list_any (is_place group resource) places.new.items ≡ list_any (is_place group resource) places.old.items }
{
    places.sort_unstable();
    places.dedup();
}

/// Places with texts of their own.
fn owned_places(alloc: Global, places: &[NamedPlace<'_>]) -> Result<Items<Place>, AllocError>
    ensures { IfOk result (λ owned. owned ≡ places.now) }
{
    let mut owned = Vec::new(alloc);
    for place in places {
        owned.push(place.owned(alloc)?)?;
    }
    Ok(Items::from_vec(owned))
}

/// The places that rules name, in order, each once.
pub fn named_places(alloc: Global, rules: &[Rule]) -> Result<Items<Place>, AllocError>
    ensures { IfOk result (AreNamedBy rules.now) }
{
    let mut places = Vec::new(alloc);
    put_rules(rules, &mut places)?;
    put_in_order(&mut places);
    owned_places(alloc, places.as_slice())
}
