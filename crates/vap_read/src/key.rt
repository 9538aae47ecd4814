//! The key under which an object is kept.

ghost use Rattle.std.specs.Prelude.{◌≡◌, IfOk};
ghost use Rattle.std.proofs.Common.{rules};
ghost use Rattle.std.specs.Cmp.{partial_order_from_own_ties, partial_equiv_from_equiv};
ghost use Rattle.std.specs.Cmp.Rules.{comparing};
ghost use Rattle.std.specs.Cmp.Lexicographic.{slice_cmp};
ghost use Rattle.std.specs.Ordering.{as_partial_cmp, eq_by_cmp, nat_cmp};
ghost use Rattle.vap_read.specs.Keys.{key_cmp};

use base_containers::Text;
use std::alloc::AllocError;
use std::cmp::Ordering;

/// What distinguishes objects. Keys are in the order of the bytes of these texts, from first to last.
#[derive(Drop)]
pub struct Key {
    pub api_version: Text,
    pub kind: Text,
    pub namespace: Text,
    pub name: Text,
}

impl Key {
    /// An equal key with texts of its own.
    pub fn copy(&self) -> Result<Key, AllocError>
        ensures { IfOk result (λ key. key ≡ self.now) }
    {
        Ok(Key {
            api_version: self.api_version.copy()?,
            kind: self.kind.copy()?,
            namespace: self.namespace.copy()?,
            name: self.name.copy()?,
        })
    }
}

impl PartialEq for Key {
    ghost eq = { eq_by_cmp key_cmp };

    ghost laws = { partial_equiv_from_equiv (Prim.search (comparing, rules) depth 12) };

    fn eq(&self, other: &Key) -> bool {
        self.cmp(other).is_eq()
    }
}

impl Eq for Key {
    ghost laws = { Prim.search (comparing, rules) depth 12 };
}

impl PartialOrd for Key {
    ghost partial_cmp = { as_partial_cmp key_cmp };

    ghost laws = { partial_order_from_own_ties (Prim.search (comparing, rules) depth 12) (Prim.search (comparing, rules) depth 12) };

    fn partial_cmp(&self, other: &Key) -> Option<Ordering> {
        Some(self.cmp(other))
    }
}

impl Ord for Key {
    ghost cmp = { key_cmp };

    ghost total = { Prim.search (comparing, rules) depth 12 };

    ghost matches_partial_cmp = { Prim.search (comparing, rules) depth 12 };

    ghost matches_eq = { Prim.search (comparing, rules) depth 12 };

    fn cmp(&self, other: &Key) -> Ordering {
        order(&self.api_version, &other.api_version)
            .then_with(|| order(&self.kind, &other.kind))
            .then_with(|| order(&self.namespace, &other.namespace))
            .then_with(|| order(&self.name, &other.name))
    }
}

fn order(left: &Text, right: &Text) -> Ordering
    ensures { result ≡ slice_cmp nat_cmp left.now right.now }
{
    left.as_str().cmp(right.as_str())
}
