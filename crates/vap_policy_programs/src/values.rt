//! What `request` holds.

ghost use Rattle.std.specs.Prelude.{◌≡◌, ◌++◌, ◌∷◌, [], IfOk, OnOk, codes, map, true};
ghost use Rattle.base_containers.specs.Keys.{IsInKeyOrder};
ghost use Rattle.cel_value.specs.CelType.{fits};
ghost use Rattle.cel_value.specs.declared.value.Value as V;
ghost use Rattle.vap_policy_programs.specs.RequestType.{request_type};
ghost use Rattle.vap_policy_programs.specs.RequestValue.{request_value, texts_entry, texts_value, user_value, versioned_value};

use base_containers::{Items, Keyed, Text, TextMap};
use cel_value::Value;
use std::alloc::{AllocError, Global};
use vap_match::{Admission, Request, UserInfo};

/// Puts a value under a name behind other fields.
fn put(
    alloc: Global,
    name: &str,
    value: Value,
    fields: &mut Vec<Keyed<Value>>,
) -> Result<(), AllocError>
    ensures { OnOk result (fields.new.items ≡ fields.old.items ++ record { key = name.now; value = value } ∷ []) }
{
    let key = Text::from_str(alloc, name)?;
    fields.push(Keyed { key, value })?;
    Ok(())
}

fn text_value(text: &Text) -> Result<Value, AllocError>
    ensures { IfOk result (λ v. v ≡ V.Text text.now) }
{
    Ok(Value::Text(text.copy()?))
}

fn put_text(
    alloc: Global,
    name: &str,
    text: &Text,
    fields: &mut Vec<Keyed<Value>>,
) -> Result<(), AllocError>
    ensures { OnOk result (fields.new.items ≡ fields.old.items ++ record { key = name.now; value = V.Text text.now } ∷ []) }
{
    put(alloc, name, text_value(text)?, fields)
}

fn texts_value(alloc: Global, texts: &[Text]) -> Result<Value, AllocError>
    ensures { IfOk result (λ v. v ≡ texts_value texts.now) }
{
    let mut items = Vec::with_capacity(alloc, texts.len())?;
    for text in texts {
        items.push(text_value(text)?)?;
    }
    Ok(Value::List(Items::from_vec(items)))
}

fn put_texts(
    alloc: Global,
    entry: &Keyed<Items<Text>>,
    entries: &mut Vec<Keyed<Value>>,
) -> Result<(), AllocError>
    ensures { OnOk result (entries.new.items ≡ entries.old.items ++ texts_entry entry.now ∷ []) }
{
    let key = entry.key.copy()?;
    let value = texts_value(alloc, entry.value.as_slice())?;
    entries.push(Keyed { key, value })?;
    Ok(())
}

fn texts_entries(
    alloc: Global,
    extra: &[Keyed<Items<Text>>],
) -> Result<Vec<Keyed<Value>>, AllocError>
    ensures { IfOk result (λ entries. entries.items ≡ map texts_entry extra.now) }
{
    let mut entries = Vec::with_capacity(alloc, extra.len())?;
    for entry in extra {
        put_texts(alloc, entry, &mut entries)?;
    }
    Ok(entries)
}

/// Lists of texts by their keys, as they are.
fn extra_value(alloc: Global, extra: &TextMap<Items<Text>>) -> Result<Value, AllocError>
    ensures { IfOk result (λ v. v ≡ V.Map (map texts_entry extra.now)) }
{
    let entries = texts_entries(alloc, extra.as_slice())?;
    Ok(Value::Map(TextMap::from_vec(entries)))
}

fn user_value(alloc: Global, user: &UserInfo) -> Result<Value, AllocError>
    ensures { IfOk result (λ v. v ≡ user_value user.now) }
{
    let mut fields = Vec::with_capacity(alloc, 4)?;
    put(
        alloc,
        "extra",
        extra_value(alloc, &user.extra)?,
        &mut fields,
    )?;
    let groups = texts_value(alloc, user.groups.as_slice())?;
    put(alloc, "groups", groups, &mut fields)?;
    put_text(alloc, "uid", &user.uid, &mut fields)?;
    put_text(alloc, "username", &user.username, &mut fields)?;
    Ok(Value::Object(TextMap::from_vec(fields)))
}

fn kind_value(alloc: Global, request: &Admission) -> Result<Value, AllocError>
    ensures { IfOk result (λ v. v ≡ versioned_value (codes "kind") request.now.kind.group request.now.kind.version request.now.kind.kind) }
{
    let kind = &request.kind;
    let mut fields = Vec::with_capacity(alloc, 3)?;
    put_text(alloc, "group", &kind.group, &mut fields)?;
    put_text(alloc, "kind", &kind.kind, &mut fields)?;
    put_text(alloc, "version", &kind.version, &mut fields)?;
    Ok(Value::Object(TextMap::from_vec(fields)))
}

fn resource_value(alloc: Global, request: &Admission) -> Result<Value, AllocError>
    ensures { IfOk result (λ v. v
        ≡ versioned_value (codes "resource") request.now.resource.group request.now.resource.version request.now.resource.resource) }
{
    let resource = &request.resource;
    let mut fields = Vec::with_capacity(alloc, 3)?;
    put_text(alloc, "group", &resource.group, &mut fields)?;
    put_text(alloc, "resource", &resource.resource, &mut fields)?;
    put_text(alloc, "version", &resource.version, &mut fields)?;
    Ok(Value::Object(TextMap::from_vec(fields)))
}

/// Puts the fields of a request, in the order of their names.
fn put_fields(
    alloc: Global,
    request: &Admission,
    fields: &mut Vec<Keyed<Value>>,
) -> Result<(), AllocError>
    requires none { fields.old.items ≡ [] }
    ensures ordered { OnOk result (IsInKeyOrder fields.new.items) }
    ensures is { OnOk result (V.Object fields.new.items ≡ request_value request.now) }
{
    put(alloc, "dryRun", Value::Bool(request.dry_run), fields)?;
    put(alloc, "kind", kind_value(alloc, request)?, fields)?;
    put_text(alloc, "name", &request.name, fields)?;
    put_text(alloc, "namespace", &request.namespace, fields)?;
    put_text(alloc, "operation", &request.operation, fields)?;
    put(alloc, "resource", resource_value(alloc, request)?, fields)?;
    put_text(alloc, "subResource", &request.sub_resource, fields)?;
    put(
        alloc,
        "userInfo",
        user_value(alloc, &request.user_info)?,
        fields,
    )
}

fn value_of(alloc: Global, request: &Admission) -> Result<Value, AllocError>
    ensures { IfOk result (λ v. v ≡ request_value request.now) }
{
    let mut fields = Vec::with_capacity(alloc, 8)?;
    put_fields(alloc, request, &mut fields)?;
    Ok(Value::Object(TextMap::from_vec(fields)))
}

/// What `request` holds, which is of its type.
pub fn request_value(alloc: Global, request: &Request) -> Result<Value, AllocError>
    ensures exact { IfOk result (λ v. v ≡ request_value request.now.admission) }
    ensures fits { IfOk result (λ v. fits v request_type ≡ true) }
{
    value_of(alloc, request.admission())
}
