//! Objects as params, fitted once to the type of their kind.

ghost use Rattle.std.specs.Prelude.{◌≡◌, ◌≤◌, ◌↔◌, IsTrue, IfOk, length, map, Some};
ghost use Rattle.std.specs.List.{All};
ghost use Rattle.vap_read_objects.specs.Fitted.{fitted_at, fitted_to, is_same_kind, params_of, refitted};
ghost use Rattle.vap_read_objects.specs.Reuse.{AreStill, is_untouched, IsKnownBy};
ghost use Rattle.vap_read_objects.specs.Seen.{IsSeenAt};
ghost use Rattle.vap_read_objects.specs.Blocks.{joined};

use crate::blocks::Block;
use crate::entry::Entry;
use crate::fitting::Fitting;
use crate::kind::Kind;
use crate::missed_kinds::all_miss_kind;
use crate::naming::{kind_of_params, spelled};
use crate::objects::Objects;
use crate::table::Table;
use base_containers::Shared;
use cel_value::{CelType, Value, same_type};
use std::alloc::{AllocError, Global};
use std::marker::Model;
use vap_read::{Event, ParamKind};
use vap_schema::FitFault;

/// An object's value at the type of its kind, or its first fault.
pub type Outcome = Result<Value, FitFault>;

/// An object as a param, with the key that it is under.
pub type Param = Entry<Outcome>;

/// Some of the params of a kind.
pub type ParamBlock = Block<Outcome>;

/// The objects of a kind as params, by namespace, then by name. Contracts see it as these objects and the type that they are
/// fitted to: that each is fitted is kept with it.
pub struct KindParams {
    kind: ParamKind,
    namespaced: bool,
    cel_type: CelType,
    /// By their keys.
    params: Table<Outcome>,
}

impl Drop for KindParams {
    fn drop(self) {
        let KindParams {
            kind: _kind,
            namespaced: _namespaced,
            cel_type: _cel_type,
            params: _params,
        } = self;
    }
}

impl Model for KindParams {
    ghost use Rattle.std.specs.Coded.{codes};
    ghost use Rattle.std.specs.List.{All};
    ghost use Rattle.std.specs.Prelude.{◌≤◌, length, map};
    ghost use Rattle.cel_value.specs.contracts.cel_type.CelType as of_types;
    ghost use Rattle.vap_read.specs.contracts.policy.ParamKind as of_kinds;
    ghost use Rattle.vap_read.specs.contracts.key.Key as of_keys;
    ghost use Rattle.vap_read.specs.contracts.object.Object as of_objects;
    ghost use Rattle.vap_read_objects.specs.Fitted.{Fitted};
    ghost use Rattle.vap_read_objects.specs.Seen.{IsSeenAt};
    ghost use Rattle.vap_read_objects.specs.Tables.{entries_in};

    ghost Value = { Fitted };

    ghost coded = { Prim.hlevel (
      codes,
      of_types.the_row.coded,
      of_kinds.the_row.coded,
      of_keys.the_row.coded,
      of_objects.the_row.coded,
    ) };

    ghost view = { λ s. record {
      kind = s.kind;
      namespaced = s.namespaced;
      cel_type = s.cel_type;
      entries = entries_in s.params;
      objects = map (λ p. p.object) s.params;
    } };

    ghost invariant = { λ s. (length s.params ≤ 4096) × All (IsSeenAt s.cel_type) s.params };
}

/// A kind of params with texts of its own.
pub fn copied(kind: &ParamKind) -> Result<ParamKind, AllocError>
    ensures { IfOk result (λ k. k ≡ kind.now) }
{
    Ok(ParamKind {
        api_version: kind.api_version.copy()?,
        kind: kind.kind.copy()?,
    })
}

/// Whether two kinds of params are written alike.
pub fn is_same_kind(left: &ParamKind, right: &ParamKind) -> bool
    ensures exact { result ≡ is_same_kind left.now right.now }
    ensures same { IsTrue result ↔ (left.now ≡ right.now) }
{
    left.api_version.as_str() == right.api_version.as_str()
        && left.kind.as_str() == right.kind.as_str()
}

fn is_type(known: &Option<CelType>, cel_type: &CelType) -> bool
    ensures { IsTrue result → (known.now ≡ Some cel_type.now) }
{
    match known {
        Some(known) => same_type(known, cel_type),
        None => false,
    }
}

impl KindParams {
    /// The objects of a kind with this type, each fitted to it.
    pub fn new(
        alloc: Global,
        objects: &Objects,
        kind: &ParamKind,
        namespaced: bool,
        cel_type: &CelType,
    ) -> Result<KindParams, AllocError>
        ensures { IfOk result (λ params. params ≡ fitted_to objects.now kind.now namespaced cel_type.now) }
    {
        let fitting = Fitting {
            alloc,
            objects,
            kind,
            cel_type,
        };
        let params = fitting.all()?;
        Ok(KindParams {
            kind: copied(kind)?,
            namespaced,
            cel_type: cel_type.copy()?,
            params,
        })
    }

    /// Whether they are of this kind.
    pub fn is_of(&self, kind: &ParamKind) -> bool
        ensures exact { result ≡ is_same_kind self.now.kind kind.now }
        ensures same { IsTrue result ↔ (self.now.kind ≡ kind.now) }
    {
        is_same_kind(&self.kind, kind)
    }

    fn is_fitted_to(&self, known: &Kind) -> bool
        ensures { IsTrue result → (known.now.namespaced ≡ self.now.namespaced) × (known.now.object_type ≡ Some self.now.cel_type) }
    {
        known.namespaced == self.namespaced && is_type(&known.object_type, &self.cel_type)
    }

    /// Whether the kind is one of these, with the type to which they are fitted.
    pub fn is_known_by(&self, kinds: &[Kind]) -> bool
        ensures { IsTrue result → IsKnownBy kinds.now self.now }
    {
        match kind_of_params(kinds, &self.kind) {
            Some(known) => self.is_fitted_to(known),
            None => false,
        }
    }

    /// Whether none of these events touches an object of the kind.
    #[tactic(auto, unfolding(crate::specs::Reuse::is_untouched))]
    pub fn is_missed(&self, events: &[Event]) -> bool
        ensures { result ≡ is_untouched events.now self.now }
    {
        let api_version = spelled(self.kind.api_version.as_str());
        all_miss_kind(events, api_version, self.kind.kind.as_str())
    }

    /// The objects of the kind that events leave, each fitted to the same type. Those that no event touches are not fitted again.
    pub fn after(
        &self,
        alloc: Global,
        objects: &Objects,
        events: &[Event],
    ) -> Result<KindParams, AllocError>
        requires { AreStill objects.now events.now self.now }
        ensures { IfOk result (λ params. params ≡ refitted objects.now self.now) }
    {
        let fitting = Fitting {
            alloc,
            objects,
            kind: &self.kind,
            cel_type: &self.cel_type,
        };
        let mut params = self.params.share(alloc)?;
        fitting.put_events(events, &mut params)?;
        Ok(KindParams {
            kind: copied(&self.kind)?,
            namespaced: self.namespaced,
            cel_type: self.cel_type.copy()?,
            params,
        })
    }

    /// Whether the objects of the kind are in namespaces.
    pub fn is_namespaced(&self) -> bool
        ensures { result ≡ self.now.namespaced }
    {
        self.namespaced
    }

    /// Each object with its value at the type, or its fault, block by block.
    pub fn blocks(&self) -> &[ParamBlock]
        ensures objects { map (λ p. p.object) (joined result.now) ≡ self.now.objects }
        ensures seen { All (IsSeenAt self.now.cel_type) (joined result.now) }
        ensures few { length (joined result.now) ≤ 4096 }
    {
        self.params.blocks()
    }
}

fn fitted_at(
    alloc: Global,
    objects: &Objects,
    kind: &ParamKind,
    known: &Kind,
) -> Result<Option<Shared<KindParams>>, AllocError>
    ensures { IfOk result (λ params. params ≡ fitted_at objects.now kind.now known.now) }
{
    match &known.object_type {
        Some(cel_type) => {
            let params = KindParams::new(alloc, objects, kind, known.namespaced, cel_type)?;
            Ok(Some(Shared::new(alloc, params)?))
        }
        None => Ok(None),
    }
}

/// The params of a kind that a policy names, if it is known.
pub fn fitted_params(
    alloc: Global,
    kinds: &[Kind],
    objects: &Objects,
    kind: &ParamKind,
) -> Result<Option<Shared<KindParams>>, AllocError>
    ensures { IfOk result (λ params. params ≡ params_of kinds.now objects.now (Some kind.now)) }
{
    match kind_of_params(kinds, kind) {
        Some(known) => fitted_at(alloc, objects, kind, known),
        None => Ok(None),
    }
}
