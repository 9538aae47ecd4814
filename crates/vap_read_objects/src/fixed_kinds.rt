//! The kinds that are known without a definition.

ghost use Rattle.std.specs.Prelude.{◌≡◌, IfOk};
ghost use Rattle.vap_read_objects.specs.FixedKinds.{data_type, data_fields, config_map_type, namespace_type};
ghost use Rattle.vap_read_objects.specs.FixedKinds.{config_map_kind, namespace_kind, fixed_kinds};

use crate::kind::Kind;
use base_containers::{Shared, Text, TextMap};
use cel_value::{CelType, Field};
use std::alloc::{AllocError, Global};
use vap_schema::with_fixed_fields;

fn data_type(alloc: Global) -> Result<CelType, AllocError>
    ensures { IfOk result (λ t. t ≡ data_type) }
{
    Ok(CelType::Map {
        max: 524_287,
        key_max: 253,
        item: Shared::new(alloc, CelType::Text { max: 1_048_576 })?,
    })
}

fn data_fields(alloc: Global) -> Result<TextMap<Field<CelType>>, AllocError>
    ensures { IfOk result (λ fields. fields ≡ data_fields) }
{
    let key = Text::from_str(alloc, "data")?;
    let cel_type = data_type(alloc)?;
    let mut fields = TextMap::new(alloc);
    fields.insert(
        key,
        Field {
            required: false,
            cel_type,
        },
    )?;
    Ok(fields)
}

/// The type of a ConfigMap.
pub fn config_map_type(alloc: Global) -> Result<CelType, AllocError>
    ensures { IfOk result (λ t. t ≡ config_map_type) }
{
    let fields = Shared::new(alloc, data_fields(alloc)?)?;
    with_fixed_fields(alloc, CelType::Object { fields })
}

/// The type of a Namespace.
pub fn namespace_type(alloc: Global) -> Result<CelType, AllocError>
    ensures { IfOk result (λ t. t ≡ namespace_type) }
{
    let fields = Shared::new(alloc, TextMap::new(alloc))?;
    with_fixed_fields(alloc, CelType::Object { fields })
}

fn config_map_kind(alloc: Global) -> Result<Kind, AllocError>
    ensures { IfOk result (λ kind. kind ≡ config_map_kind) }
{
    Ok(Kind {
        group: Text::from_str(alloc, "")?,
        version: Text::from_str(alloc, "v1")?,
        kind: Text::from_str(alloc, "ConfigMap")?,
        plural: Text::from_str(alloc, "configmaps")?,
        namespaced: true,
        object_type: Some(config_map_type(alloc)?),
    })
}

fn namespace_kind(alloc: Global) -> Result<Kind, AllocError>
    ensures { IfOk result (λ kind. kind ≡ namespace_kind) }
{
    Ok(Kind {
        group: Text::from_str(alloc, "")?,
        version: Text::from_str(alloc, "v1")?,
        kind: Text::from_str(alloc, "Namespace")?,
        plural: Text::from_str(alloc, "namespaces")?,
        namespaced: false,
        object_type: Some(namespace_type(alloc)?),
    })
}

/// The kinds that are known without a definition.
pub fn fixed_kinds(alloc: Global) -> Result<Vec<Kind>, AllocError>
    ensures { IfOk result (λ kinds. kinds.items ≡ fixed_kinds) }
{
    let mut kinds = Vec::new(alloc);
    kinds.push(config_map_kind(alloc)?)?;
    kinds.push(namespace_kind(alloc)?)?;
    Ok(kinds)
}
