//! The type of `request`.

ghost use Rattle.std.specs.Prelude.{◌≡◌, List, IfOk};
ghost use Rattle.base_containers.specs.declared.text.Keyed.{Keyed};
ghost use Rattle.cel_value.specs.declared.cel_type.Field.{Field as FieldOf};
ghost use Rattle.cel_value.specs.declared.cel_type.CelType.{CelType as TypeOf};
ghost use Rattle.cel_value.specs.declared.cel_type.CelType as T;
ghost use Rattle.vap_policy_programs.specs.RequestType.{asked_fields, request_type, texts_type, user_type, versioned_type, with_required};
ghost use Rattle.vap_policy_programs.specs.RequestType.{with_short};

use base_containers::{Shared, Text, TextMap};
use cel_value::{CelType, Field};
use std::alloc::{AllocError, Global};

/// Fields that were made, if memory sufficed.
type Fields = Result<TextMap<Field<CelType>>, AllocError>;

/// The fields with one more, which is required, in place of what is under its name.
fn with_required(
    alloc: Global,
    fields: Fields,
    name: &str,
    cel_type: Result<CelType, AllocError>,
) -> Fields
    ensures { (fs : List (Keyed (FieldOf TypeOf))) (t : TypeOf) → IfOk fields (λ it. it ≡ fs) → IfOk cel_type (λ it. it ≡ t)
        → IfOk result (λ all. all ≡ with_required name.now t fs) }
{
    let key = Text::from_str(alloc, name)?;
    let cel_type = cel_type?;
    let mut fields = fields?;
    fields.remove(name);
    fields.insert(
        key,
        Field {
            required: true,
            cel_type,
        },
    )?;
    Ok(fields)
}

fn with_short(alloc: Global, fields: Fields, name: &str) -> Fields
    ensures { (fs : List (Keyed (FieldOf TypeOf))) → IfOk fields (λ it. it ≡ fs) → IfOk result (λ all. all ≡ with_short name.now fs) }
{
    with_required(alloc, fields, name, Ok(CelType::Text { max: 253 }))
}

fn object_of(alloc: Global, fields: Fields) -> Result<CelType, AllocError>
    ensures { (want : List (Keyed (FieldOf TypeOf))) → IfOk fields (λ fs. fs ≡ want) → IfOk result (λ t. t ≡ T.Object want) }
{
    Ok(CelType::Object {
        fields: Shared::new(alloc, fields?)?,
    })
}

/// A group, a version and a last part of this name.
fn versioned_type(alloc: Global, last: &str) -> Result<CelType, AllocError>
    ensures { IfOk result (λ t. t ≡ versioned_type last.now) }
{
    let fields = with_short(alloc, Ok(TextMap::new(alloc)), "group");
    let fields = with_short(alloc, fields, "version");
    object_of(alloc, with_short(alloc, fields, last))
}

fn texts_type(alloc: Global) -> Result<CelType, AllocError>
    ensures { IfOk result (λ t. t ≡ texts_type) }
{
    Ok(CelType::List {
        max: 1024,
        plain: true,
        item: Shared::new(alloc, CelType::Text { max: 1024 })?,
    })
}

fn extra_type(alloc: Global) -> Result<CelType, AllocError>
    ensures { IfOk result (λ t. t ≡ T.Map 1024 1024 texts_type) }
{
    Ok(CelType::Map {
        max: 1024,
        key_max: 1024,
        item: Shared::new(alloc, texts_type(alloc)?)?,
    })
}

/// The type of the user whose request it is.
fn user_type(alloc: Global) -> Result<CelType, AllocError>
    ensures { IfOk result (λ t. t ≡ user_type) }
{
    let none = Ok(TextMap::new(alloc));
    let fields = with_required(alloc, none, "username", Ok(CelType::Text { max: 1024 }));
    let fields = with_required(alloc, fields, "uid", Ok(CelType::Text { max: 1024 }));
    let fields = with_required(alloc, fields, "groups", texts_type(alloc));
    object_of(
        alloc,
        with_required(alloc, fields, "extra", extra_type(alloc)),
    )
}

/// The fields of what is asked, and on what.
fn asked_fields(alloc: Global) -> Fields
    ensures { IfOk result (λ fields. fields ≡ asked_fields) }
{
    let fields = with_short(alloc, Ok(TextMap::new(alloc)), "name");
    let fields = with_short(alloc, fields, "namespace");
    let fields = with_short(alloc, fields, "subResource");
    let fields = with_required(alloc, fields, "operation", Ok(CelType::Text { max: 7 }));
    with_required(alloc, fields, "dryRun", Ok(CelType::Bool))
}

/// The type of `request`.
pub fn request_type(alloc: Global) -> Result<CelType, AllocError>
    ensures { IfOk result (λ t. t ≡ request_type) }
{
    let kind = versioned_type(alloc, "kind");
    let fields = with_required(alloc, asked_fields(alloc), "kind", kind);
    let resource = versioned_type(alloc, "resource");
    let fields = with_required(alloc, fields, "resource", resource);
    object_of(
        alloc,
        with_required(alloc, fields, "userInfo", user_type(alloc)),
    )
}
