//! The params of kinds after events.

ghost use Rattle.std.specs.Prelude.{◌≡◌, map, IfOk};
ghost use Rattle.std.specs.List.{All};
ghost use Rattle.vap_read_objects.specs.Fitted.{refitted};
ghost use Rattle.vap_read_objects.specs.Reuse.{AreStill};

use crate::kind_params::KindParams;
use crate::objects::Objects;
use base_containers::{Items, Shared};
use std::alloc::{AllocError, Global};
use vap_read::Event;

/// The params of a kind after events, fitted to the same type.
fn kind_params_after(
    alloc: Global,
    old: &Shared<KindParams>,
    objects: &Objects,
    events: &[Event],
) -> Result<Shared<KindParams>, AllocError>
    requires { AreStill objects.now events.now old.now }
    ensures { IfOk result (λ params. params ≡ refitted objects.now old.now) }
{
    if old.get().is_missed(events) {
        old.share()
    } else {
        Shared::new(alloc, old.get().after(alloc, objects, events)?)
    }
}

/// The params of each kind after events, fitted to the same types. Only those that an event touches are fitted.
pub fn params_after(
    alloc: Global,
    old: &[Shared<KindParams>],
    objects: &Objects,
    events: &[Event],
) -> Result<Items<Shared<KindParams>>, AllocError>
    requires { All (AreStill objects.now events.now) old.now }
    ensures { IfOk result (λ all. all ≡ map (refitted objects.now) old.now) }
{
    let mut all = Vec::new(alloc);
    for params in old {
        all.push(kind_params_after(alloc, params, objects, events)?)?;
    }
    Ok(Items::from_vec(all))
}
