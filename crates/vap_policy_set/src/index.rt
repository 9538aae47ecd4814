//! Policies by the resources that they name.

ghost use Rattle.std.specs.Prelude.{◌≡◌, ◌++◌, false, [], ◌∷◌, filter, map, IfOk, OnOk};
ghost use Rattle.std.specs.List.{All};
ghost use Rattle.std.specs.List.Sorted.{IsStrictlySortedBy};
ghost use Rattle.vap_policy_set.specs.Index.{AreApart, AreEnough, AreEntriesOf, AreForPlaces, IsEntryOf, IsFoundAt, empty_entry};
ghost use Rattle.vap_policy_set.specs.Index.{if_wide, with_behind, with_named, with_policy};
ghost use Rattle.vap_policy_set.specs.PlaceOrder.{place_cmp};
ghost use Rattle.vap_policy_set.specs.Places.{NameSame};
ghost use Rattle.vap_policy_set.specs.PolicyCovering.{AreRead, IsReadOf, is_wide, places_in};

use crate::bound::BoundPolicy;
use crate::places::{NamedPlace, Place, put_in_order, put_places};
use base_containers::{Items, Shared};
use std::alloc::{AllocError, Global};
use std::cmp::Ordering;
use std::marker::Model;

/// The policies that may cover requests on a resource of a group, by name.
#[derive(Drop)]
pub struct Entry {
    pub place: Place,
    pub policies: Items<Shared<BoundPolicy>>,
}

/// Policies, by name, and found by the resources that they name. Contracts see the policies.
pub struct Index {
    all: Items<Shared<BoundPolicy>>,
    /// Those that may cover each place that a policy names, by place.
    entries: Items<Entry>,
    /// Those that may cover more than the places that they name.
    wide: Items<Shared<BoundPolicy>>,
}

impl Drop for Index {
    fn drop(self) {
        let Index {
            all: _all,
            entries: _entries,
            wide: _wide,
        } = self;
    }
}

impl Model for Index {
    ghost use Rattle.std.specs.Coded.{codes};
    ghost use Rattle.std.specs.Prelude.{◌≡◌, List, filter};
    ghost use Rattle.vap_policy_set.specs.Index.{AreEntriesOf};
    ghost use Rattle.vap_policy_set.specs.PolicyCovering.{is_wide};
    ghost use Rattle.vap_policy_set.specs.contracts.bound.BoundPolicy as of_policies;
    ghost use Rattle.vap_policy_set.specs.declared.bound.BoundPolicy.{BoundPolicy as PolicyOf};

    ghost Value = { List PolicyOf };

    ghost coded = { Prim.hlevel (codes, of_policies.the_row.coded) };

    ghost view = { λ i. i.all };

    ghost invariant = { λ i. (i.wide ≡ filter is_wide i.all) × AreEntriesOf i.all i.entries };
}

/// How the place of an entry compares to a resource of a group.
fn order_at(entry: &Entry, group: &str, resource: &str) -> Ordering
    ensures { result ≡ place_cmp entry.now.place (record { group = group.now; resource = resource.now }) }
{
    let by_group = entry.place.group.as_str().cmp(group);
    by_group.then(entry.place.resource.as_str().cmp(resource))
}

/// Where the entry for a resource of a group is.
fn entry_at(entries: &[Entry], group: &str, resource: &str) -> Option<usize>
    requires { AreApart entries.now }
    ensures { IsFoundAt group.now resource.now entries.now result }
{
    match entries.binary_search_by(|entry| order_at(entry, group, resource)) {
        Ok(at) => Some(at),
        Err(_) => None,
    }
}

/// Puts a policy after the others of an entry.
fn put_behind(policy: &Shared<BoundPolicy>, entry: &mut Entry) -> Result<(), AllocError>
    ensures { OnOk result (entry.new ≡ with_behind policy.now entry.old) }
{
    entry.policies.push(policy.share()?)
}

/// The same, if the policy may cover what the entry is for.
#[tactic(auto, unfolding(crate::specs::Index::with_policy))]
fn put_covering(policy: &Shared<BoundPolicy>, entry: &mut Entry) -> Result<(), AllocError>
    ensures { OnOk result (entry.new ≡ with_policy policy.now entry.old) }
{
    if policy
        .get()
        .may_cover(entry.place.group.as_str(), entry.place.resource.as_str())
    {
        put_behind(policy, entry)
    } else {
        Ok(())
    }
}

/// Puts a policy to each entry that it may cover.
fn put_wide(policy: &Shared<BoundPolicy>, entries: &mut [Entry]) -> Result<(), AllocError>
    ensures { OnOk result (entries.new ≡ map (with_policy policy.now) entries.old) }
{
    for at in 0..entries.len() {
        put_covering(policy, &mut entries[at])?;
    }
    Ok(())
}

/// Puts a policy to the entry for a place, if there is one.
fn put_at(
    policy: &Shared<BoundPolicy>,
    place: &Place,
    entries: &mut [Entry],
) -> Result<(), AllocError>
    requires apart { AreApart entries.old }
    ensures { OnOk result (entries.new ≡ map (with_named (place.now ∷ []) policy.now) entries.old) }
{
    match entry_at(entries, place.group.as_str(), place.resource.as_str()) {
        Some(at) => put_behind(policy, &mut entries[at]),
        None => Ok(()),
    }
}

/// Puts a policy to the entries for places.
fn put_at_each(
    policy: &Shared<BoundPolicy>,
    places: &[Place],
    entries: &mut [Entry],
) -> Result<(), AllocError>
    requires apart { AreApart entries.old }
    requires ordered { IsStrictlySortedBy place_cmp places.now }
    ensures { OnOk result (entries.new ≡ map (with_named places.now policy.now) entries.old) }
{
    for place in places {
        put_at(policy, place, entries)?;
    }
    Ok(())
}

/// Puts a policy to the entries for the places that it names.
fn put_narrow(policy: &Shared<BoundPolicy>, entries: &mut [Entry]) -> Result<(), AllocError>
    requires apart { AreApart entries.old }
    requires read { IsReadOf policy.now }
    requires narrow { is_wide policy.now ≡ false }
    ensures { OnOk result (entries.new ≡ map (with_policy policy.now) entries.old) }
{
    put_at_each(policy, policy.get().places(), entries)
}

/// Puts a policy to each entry that it may cover, and to the wide ones if it is wide. A narrow policy finds its entries by the places
/// that it names.
#[tactic(auto, unfolding(crate::specs::Index::if_wide))]
fn put_policy(
    policy: &Shared<BoundPolicy>,
    entries: &mut [Entry],
    wide: &mut Vec<Shared<BoundPolicy>>,
) -> Result<(), AllocError>
    requires apart { AreApart entries.old }
    requires read { IsReadOf policy.now }
    ensures entries { OnOk result (entries.new ≡ map (with_policy policy.now) entries.old) }
    ensures wide { OnOk result (wide.new.items ≡ wide.old.items ++ if_wide policy.now) }
{
    if policy.get().is_wide() {
        wide.push(policy.share()?)?;
        put_wide(policy, entries)
    } else {
        put_narrow(policy, entries)
    }
}

fn empty_entries(alloc: Global, places: &[NamedPlace<'_>]) -> Result<Vec<Entry>, AllocError>
    ensures { IfOk result (λ es. es.items ≡ map empty_entry places.now) }
{
    let mut entries = Vec::new(alloc);
    for place in places {
        entries.push(Entry {
            place: place.owned(alloc)?,
            policies: Items::new(alloc),
        })?;
    }
    Ok(entries)
}

/// Policies as they are found: entries for places, and those that may cover more than the places that they name.
#[derive(Drop)]
struct Found {
    entries: Items<Entry>,
    wide: Items<Shared<BoundPolicy>>,
}

/// Policies that are put to entries for places one after the other.
fn found_at(
    alloc: Global,
    policies: &[Shared<BoundPolicy>],
    places: &[NamedPlace<'_>],
) -> Result<Found, AllocError>
    requires ordered { IsStrictlySortedBy place_cmp places.now }
    requires read { AreRead policies.now }
    ensures right { IfOk result (λ found. All (IsEntryOf policies.now) found.entries) }
    ensures named { IfOk result (λ found. AreForPlaces places.now found.entries) }
    ensures apart { IfOk result (λ found. AreApart found.entries) }
    ensures wide { IfOk result (λ found. found.wide ≡ filter is_wide policies.now) }
{
    let mut entries = empty_entries(alloc, places)?;
    let mut wide = Vec::new(alloc);
    for policy in policies {
        put_policy(policy, entries.as_mut_slice(), &mut wide)?;
    }
    Ok(Found {
        entries: Items::from_vec(entries),
        wide: Items::from_vec(wide),
    })
}

/// The places that policies name.
fn places_in<'a>(
    alloc: Global,
    policies: &'a [Shared<BoundPolicy>],
) -> Result<Vec<NamedPlace<'a>>, AllocError>
    requires read { AreRead policies.now }
    ensures { IfOk result (λ places. NameSame places.items (places_in policies.now)) }
{
    let mut places = Vec::new(alloc);
    for policy in policies {
        put_places(policy.get().places(), &mut places)?;
    }
    Ok(places)
}

/// Policies with entries for the places that they name.
fn found_in(alloc: Global, policies: &[Shared<BoundPolicy>]) -> Result<Found, AllocError>
    requires read { AreRead policies.now }
    ensures entries { IfOk result (λ found. AreEntriesOf policies.now found.entries) }
    ensures wide { IfOk result (λ found. found.wide ≡ filter is_wide policies.now) }
{
    let mut places = places_in(alloc, policies)?;
    put_in_order(&mut places);
    found_at(alloc, policies, places.as_slice())
}

impl Index {
    /// Policies with their index.
    pub fn new(alloc: Global, all: Items<Shared<BoundPolicy>>) -> Result<Index, AllocError>
        requires read { AreRead all }
        ensures { IfOk result (λ index. index ≡ all) }
    {
        let found = found_in(alloc, all.as_slice())?;
        let Found { entries, wide } = found;
        Ok(Index { all, entries, wide })
    }

    /// All policies.
    pub fn all(&self) -> &[Shared<BoundPolicy>]
        ensures { result.now ≡ self.now }
    {
        self.all.as_slice()
    }

    /// Some of the policies, by name, among them all that may cover requests on a resource of a group.
    pub fn on(&self, group: &str, resource: &str) -> &[Shared<BoundPolicy>]
        ensures { AreEnough group.now resource.now self.now result.now }
    {
        let entries = self.entries.as_slice();
        match entry_at(entries, group, resource) {
            Some(at) => entries[at].policies.as_slice(),
            None => self.wide.as_slice(),
        }
    }
}
