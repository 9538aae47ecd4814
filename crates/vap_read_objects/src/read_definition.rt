//! Definitions, read.

ghost use Rattle.std.specs.Prelude.{◌≡◌, IfOk};
ghost use Rattle.vap_read_objects.specs.Kinds.{kinds_in};

use crate::kind::Kind;
use crate::kinds::kinds_in;
use base_containers::{Items, Keyed, Shared};
use std::alloc::{AllocError, Global};
use std::marker::Model;
use vap_read::Object;

/// A definition with the kinds that it defines by itself. Contracts see it as the definition.
pub struct ReadDefinition {
    object: Shared<Object>,
    kinds: Items<Kind>,
}

impl Drop for ReadDefinition {
    fn drop(self) {
        let ReadDefinition {
            object: _object,
            kinds: _kinds,
        } = self;
    }
}

impl Model for ReadDefinition {
    ghost use Rattle.std.specs.Coded.{codes};
    ghost use Rattle.std.specs.Prelude.{◌≡◌};
    ghost use Rattle.vap_read_objects.specs.Kinds.{kinds_in};
    ghost use Rattle.vap_read.specs.contracts.object.Object as of_objects;
    ghost use Rattle.vap_read.specs.declared.object.Object.{Object as Read};

    ghost Value = { Read };

    ghost coded = { Prim.hlevel (codes, of_objects.the_row.coded) };

    ghost view = { λ d. d.object };

    ghost invariant = { λ d. d.kinds ≡ kinds_in d.object };
}

impl ReadDefinition {
    /// Reads a definition.
    pub fn new(alloc: Global, object: &Shared<Object>) -> Result<ReadDefinition, AllocError>
        ensures { IfOk result (λ definition. definition ≡ object.now) }
    {
        let kinds = kinds_in(alloc, object.get())?;
        Ok(ReadDefinition {
            object: object.share()?,
            kinds,
        })
    }

    /// The definition.
    pub fn object(&self) -> &Object
        ensures { result.now ≡ self.now }
    {
        self.object.get()
    }

    /// The kinds that it defines by itself.
    pub fn kinds(&self) -> &[Kind]
        ensures { result.now ≡ kinds_in self.now }
    {
        self.kinds.as_slice()
    }
}

/// Definitions, read, by their names.
pub fn read_all(
    alloc: Global,
    definitions: &[Keyed<Shared<Object>>],
) -> Result<Items<Keyed<Shared<ReadDefinition>>>, AllocError>
    ensures { IfOk result (λ all. all ≡ definitions.now) }
{
    let mut all = Vec::new(alloc);
    for definition in definitions {
        let key = definition.key.copy()?;
        let value = Shared::new(alloc, ReadDefinition::new(alloc, &definition.value)?)?;
        all.push(Keyed { key, value })?;
    }
    Ok(Items::from_vec(all))
}
