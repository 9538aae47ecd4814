//! Objects of a kind, and Namespaces with their labels.

ghost use Rattle.std.specs.Prelude.{◌≡◌, IfOk};
ghost use Rattle.std.specs.Option.{option_copied};
ghost use Rattle.vap_match.specs.Select.{lent_labels};
ghost use Rattle.vap_read.specs.Keys.{is_of};
ghost use Rattle.vap_read_objects.specs.Classes.{of_class};
ghost use Rattle.vap_read_objects.specs.OfKind.{objects_of_kind, namespaces_in, object_at, namespace_key};
ghost use Rattle.vap_read_objects.specs.OfKind.{labels_in, namespace_labels};

use base_containers::{Items, Part, Shared, Text};
use std::alloc::{AllocError, Global};
use vap_match::{Labels, labels_of};
use vap_read::{Key, Object, ObjectMap};

/// The objects of a version and kind, by namespace, then by name.
pub fn objects_of_kind(
    alloc: Global,
    api_version: &str,
    kind: &str,
    objects: &ObjectMap,
) -> Result<Items<Shared<Object>>, AllocError>
    ensures { IfOk result (λ found. found ≡ objects_of_kind api_version.now kind.now objects.now) }
{
    let mut found = Vec::new(alloc);
    for (_, object) in objects.of_kind(alloc, api_version, kind)? {
        found.push(object.share()?)?;
    }
    Ok(Items::from_vec(found))
}

/// The entries whose keys are of a version and kind.
pub fn entries_of_kind(
    alloc: Global,
    api_version: &str,
    kind: &str,
    objects: &ObjectMap,
) -> Result<ObjectMap, AllocError>
    ensures { IfOk result (λ found. found ≡ of_class (is_of api_version.now kind.now) objects.now) }
{
    let mut found = ObjectMap::new(alloc);
    for (key, object) in objects.of_kind(alloc, api_version, kind)? {
        found.put_under(key.copy()?, object.share()?)?;
    }
    Ok(found)
}

/// The Namespaces by their keys.
pub fn namespaces_in(alloc: Global, objects: &ObjectMap) -> Result<ObjectMap, AllocError>
    ensures { IfOk result (λ found. found ≡ namespaces_in objects.now) }
{
    entries_of_kind(alloc, "v1", "Namespace", objects)
}

fn namespace_key(alloc: Global, name: &str) -> Result<Key, AllocError>
    ensures { IfOk result (λ key. key ≡ namespace_key name.now) }
{
    Ok(Key {
        api_version: Text::from_str(alloc, "v1")?,
        kind: Text::from_str(alloc, "Namespace")?,
        namespace: Text::from_str(alloc, "")?,
        name: Text::from_str(alloc, name)?,
    })
}

/// A Namespace that is held.
pub fn namespace<'a>(
    alloc: Global,
    name: &str,
    objects: &'a ObjectMap,
) -> Result<Option<&'a Shared<Object>>, AllocError>
    ensures { IfOk result (λ found. option_copied found ≡ object_at (namespace_key name.now) objects.now) }
{
    let key = namespace_key(alloc, name)?;
    Ok(objects.get(&key))
}

/// The labels of a Namespace: none if it is not there.
pub fn labels_in<'t, 'a>(namespace: Option<&'a Object>) -> Labels<'t, 'a>
    ensures { lent_labels result ≡ labels_in (option_copied namespace.entry) }
{
    match namespace {
        Some(object) => labels_of(&Part::of_tree(object.document.json())),
        None => Labels { found: None },
    }
}

/// The labels that are held for a Namespace: none if it is not there.
pub fn namespace_labels<'t, 'a>(
    alloc: Global,
    name: &str,
    objects: &'a ObjectMap,
) -> Result<Labels<'t, 'a>, AllocError>
    ensures { IfOk result (λ labels. lent_labels labels ≡ namespace_labels name.now objects.now) }
{
    match namespace(alloc, name, objects)? {
        Some(object) => Ok(labels_of(&Part::of_tree(object.get().document.json()))),
        None => Ok(Labels { found: None }),
    }
}
