//! The params of each kind that policies name.

ghost use Rattle.std.specs.Prelude.{◌≡◌, ◌++◌, ◌∷◌, [], Some, IfOk, OnOk};
ghost use Rattle.std.specs.List.{All, find, flat_map, list_any};
ghost use Rattle.std.specs.Option.{option_copied};
ghost use Rattle.vap_read_objects.specs.Fitted.{Adds, all_params, fitted_in, is_same_kind, kind_in, kinds_named, params_of};
ghost use Rattle.vap_read_objects.specs.Reuse.{AreRefitted};

use crate::kind::Kind;
use crate::kind_params::{KindParams, copied, fitted_params, is_same_kind};
use crate::objects::Objects;
use base_containers::{Items, Keyed, Shared};
use std::alloc::{AllocError, Global};
use vap_read::{ParamKind, Policy};

fn is_among(kinds: &[ParamKind], kind: &ParamKind) -> bool
    ensures { result ≡ list_any (is_same_kind kind.now) kinds.now }
{
    for other in kinds {
        if is_same_kind(kind, other) {
            return true;
        }
    }
    false
}

/// Puts a kind after others, if it is not among them.
fn add_once(kinds: &mut Vec<ParamKind>, kind: &ParamKind) -> Result<(), AllocError>
    ensures { OnOk result (Adds (kind.now ∷ []) kinds.old.items kinds.new.items) }
{
    if is_among(kinds.as_slice(), kind) {
        return Ok(());
    }
    kinds.push(copied(kind)?)?;
    Ok(())
}

fn add_named(kinds: &mut Vec<ParamKind>, policy: &Keyed<Policy>) -> Result<(), AllocError>
    ensures { OnOk result (Adds (kind_in policy.now) kinds.old.items kinds.new.items) }
{
    match &policy.value.spec.get().param_kind {
        Some(kind) => add_once(kinds, kind),
        None => Ok(()),
    }
}

/// The kinds of params that policies name, each once.
fn kinds_named(alloc: Global, policies: &[Keyed<Policy>]) -> Result<Vec<ParamKind>, AllocError>
    ensures { IfOk result (λ kinds. kinds.items ≡ kinds_named policies.now) }
{
    let mut kinds = Vec::new(alloc);
    for policy in policies {
        add_named(&mut kinds, policy)?;
    }
    Ok(kinds)
}

/// The params of a kind, if they are among these.
pub fn find_params<'a>(
    all: &'a [Shared<KindParams>],
    kind: &ParamKind,
) -> Option<&'a Shared<KindParams>>
    ensures { option_copied result ≡ find (λ q. is_same_kind q.kind kind.now) all.now }
{
    for params in all {
        if params.get().is_of(kind) {
            return Some(params);
        }
    }
    None
}

/// The params of a kind: those that are kept of it, if its type is the same, or its objects, newly fitted.
fn kind_params(
    alloc: Global,
    kinds: &[Kind],
    objects: &Objects,
    kept: &[Shared<KindParams>],
    kind: &ParamKind,
) -> Result<Option<Shared<KindParams>>, AllocError>
    requires { All (AreRefitted objects.now) kept.now }
    ensures { IfOk result (λ params. params ≡ params_of kinds.now objects.now (Some kind.now)) }
{
    match find_params(kept, kind) {
        Some(params) if params.get().is_known_by(kinds) => Ok(Some(params.share()?)),
        _ => fitted_params(alloc, kinds, objects, kind),
    }
}

/// The params of each of these kinds that is known.
#[tactic(auto, unfolding(crate::specs::Fitted::fitted_in))]
fn fitted_all(
    alloc: Global,
    kinds: &[Kind],
    objects: &Objects,
    kept: &[Shared<KindParams>],
    named: &[ParamKind],
) -> Result<Items<Shared<KindParams>>, AllocError>
    requires { All (AreRefitted objects.now) kept.now }
    ensures { IfOk result (λ all. all ≡ flat_map (fitted_in kinds.now objects.now) named.now) }
{
    let mut all = Vec::new(alloc);
    for kind in named {
        if let Some(params) = kind_params(alloc, kinds, objects, kept, kind)? {
            all.push(params)?;
        }
    }
    Ok(Items::from_vec(all))
}

/// The params of each kind that policies name and that is known. The objects of a kind are fitted once, and not at all if
/// those that are kept are of its type.
pub fn all_params(
    alloc: Global,
    kinds: &[Kind],
    objects: &Objects,
    kept: &[Shared<KindParams>],
    policies: &[Keyed<Policy>],
) -> Result<Items<Shared<KindParams>>, AllocError>
    requires { All (AreRefitted objects.now) kept.now }
    ensures { IfOk result (λ all. all ≡ all_params kinds.now objects.now policies.now) }
{
    let named = kinds_named(alloc, policies)?;
    fitted_all(alloc, kinds, objects, kept, named.as_slice())
}
