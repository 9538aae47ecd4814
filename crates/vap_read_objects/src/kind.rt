//! Kinds of objects.

ghost use Rattle.std.specs.Prelude.{◌≡◌, IfOk};
ghost use Rattle.std.specs.List.{list_any};
ghost use Rattle.std.specs.Option.{option_copied};
ghost use Rattle.vap_read_objects.specs.Kinds.{is_named, kind_named};

use base_containers::Text;
use cel_value::CelType;
use std::alloc::AllocError;

/// A kind of objects in one version.
pub struct Kind {
    pub group: Text,
    pub version: Text,
    pub kind: Text,
    /// Its name in the resources of requests.
    pub plural: Text,
    /// Whether its objects are in namespaces.
    pub namespaced: bool,
    /// The type of its objects. There is none if the schema is refused: the kind is then like one that is unknown.
    pub object_type: Option<CelType>,
}

impl Drop for Kind {
    fn drop(self) {
        let Kind {
            group: _group,
            version: _version,
            kind: _kind,
            plural: _plural,
            namespaced: _namespaced,
            object_type: _object_type,
        } = self;
    }
}

fn copied(cel_type: &Option<CelType>) -> Result<Option<CelType>, AllocError>
    ensures { IfOk result (λ t. t ≡ cel_type.now) }
{
    match cel_type {
        Some(cel_type) => Ok(Some(cel_type.copy()?)),
        None => Ok(None),
    }
}

impl Kind {
    /// An equal kind with texts of its own.
    pub fn copy(&self) -> Result<Kind, AllocError>
        ensures { IfOk result (λ kind. kind ≡ self.now) }
    {
        Ok(Kind {
            group: self.group.copy()?,
            version: self.version.copy()?,
            kind: self.kind.copy()?,
            plural: self.plural.copy()?,
            namespaced: self.namespaced,
            object_type: copied(&self.object_type)?,
        })
    }
}

fn is_named(group: &str, version: &str, kind: &str, known: &Kind) -> bool
    ensures { result ≡ is_named group.now version.now kind.now known.now }
{
    known.group.as_str() == group
        && known.version.as_str() == version
        && known.kind.as_str() == kind
}

/// Whether there is a kind of this group, version and name.
pub fn has_named(kinds: &[Kind], group: &str, version: &str, kind: &str) -> bool
    ensures { result ≡ list_any (is_named group.now version.now kind.now) kinds.now }
{
    for known in kinds {
        if is_named(group, version, kind, known) {
            return true;
        }
    }
    false
}

/// The kind of this group, version and name, if there is one.
pub fn find_kind<'a>(kinds: &'a [Kind], group: &str, version: &str, kind: &str) -> Option<&'a Kind>
    ensures { option_copied result ≡ kind_named group.now version.now kind.now kinds.now }
{
    for known in kinds {
        if is_named(group, version, kind, known) {
            return Some(known);
        }
    }
    None
}
