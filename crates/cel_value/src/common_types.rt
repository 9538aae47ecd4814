ghost use Rattle.std.specs.Prelude.{◌≡◌, ◌↔◌, ◌⊎◌, ◌&&◌, ℕ, max, Bool, Some, None, IsTrue, IfOk, IfSome};
ghost use Rattle.std.specs.Option.{option_map};
ghost use Rattle.base_containers.specs.Keys.{keys_in};
ghost use Rattle.cel_value.specs.declared.cel_type.CelType as T;
ghost use Rattle.cel_value.specs.declared.cel_type.CelType.{CelType};
ghost use Rattle.cel_value.specs.declared.value.Value.{Value};
ghost use Rattle.cel_value.specs.Fits.{fits};
ghost use Rattle.cel_value.specs.Assignable.{assignable};
ghost use Rattle.cel_value.specs.Greatest.{AllowsAsMuch};
ghost use Rattle.cel_value.specs.Join.{Fields, IsBare, Joins};
ghost use Rattle.cel_value.specs.JoinFold.{join};
ghost use Rattle.cel_value.specs.JoinRules.{are_of_one_kind, joined_fields};
ghost use Rattle.cel_value.specs.Joining.{IsInside, join_same_kind, wrapped};

use crate::assignment::assignable;
use crate::cel_type::{CelType, Field};
use crate::value::keyed;
use base_containers::{Shared, TextMap};
use std::alloc::{AllocError, Global};

/// The type of what has one of two types, if the rules give one: each of the two may be used where it is expected,
/// what fits one of them fits it, and it allows as much as each.
pub fn join(alloc: Global, left: &CelType, right: &CelType) -> Result<Option<CelType>, AllocError>
    ensures by_rules { IfOk result (λ joined. (t : CelType) → joined ≡ Some t ↔ Joins left.now right.now t) }
    ensures exact { IfOk result (λ joined. joined ≡ join left.now right.now) }
    ensures itself { left.now ≡ right.now → IfOk result (λ joined. joined ≡ Some left.now) }
    ensures takes_left { IfOk result (λ joined. IfSome joined (λ t. IsTrue (assignable left.now t))) }
    ensures takes_right { IfOk result (λ joined. IfSome joined (λ t. IsTrue (assignable right.now t))) }
    ensures admits_both { IfOk result (λ joined. IfSome joined (λ t.
        (value : Value) → IsTrue (fits value left.now) ⊎ IsTrue (fits value right.now) → IsTrue (fits value t))) }
    ensures left_limits { IfOk result (λ joined. IfSome joined (λ t. AllowsAsMuch left.now t)) }
    ensures right_limits { IfOk result (λ joined. IfSome joined (λ t. AllowsAsMuch right.now t)) }
{
    join_or_share(alloc, left, right)
}

/// The rules by which two types have a join, as `join` computes it: the first that fits them gives it, in either order.
pub fn join_rules()
    ensures rules { (s t u : CelType) → join s t ≡ Some u ↔ Joins s t u }
    ensures agree { (s t u v : CelType) → Joins s t u → Joins s t v → u ≡ v }
    ensures either_order { (s t : CelType) → join s t ≡ join t s }
    ensures never { (t : CelType) → join T.Never t ≡ Some t }
    ensures itself { (t : CelType) → join t t ≡ Some t }
    ensures null_and_nullable { (t : CelType) → join T.Null (T.Nullable t) ≡ Some (T.Nullable t) }
    ensures null_and_other { (t : CelType) → IsBare t → join T.Null t ≡ Some (T.Nullable t) }
    ensures both_nullable { (s t : CelType) → join (T.Nullable s) (T.Nullable t) ≡ option_map (λ u. T.Nullable u) (join s t) }
    ensures one_nullable { (s t : CelType) → IsBare t → join (T.Nullable s) t ≡ option_map (λ u. T.Nullable u) (join s t) }
    ensures texts { (m n : ℕ) → join (T.Text m) (T.Text n) ≡ Some (T.Text (max m n)) }
    ensures lists { (m n : ℕ) (a b : Bool) (s t : CelType)
        → join (T.List m a s) (T.List n b t) ≡ option_map (λ u. T.List (max m n) (a && b) u) (join s t) }
    ensures maps { (m n i j : ℕ) (s t : CelType)
        → join (T.Map m i s) (T.Map n j t) ≡ option_map (λ u. T.Map (max m n) (max i j) u) (join s t) }
    ensures objects { (fs gs : Fields)
        → join (T.Object fs) (T.Object gs) ≡ option_map (λ hs. T.Object hs) (joined_fields fs gs) }
    ensures same_names { (fs gs hs : Fields)
        → joined_fields fs gs ≡ Some hs → (keys_in hs ≡ keys_in fs) × (keys_in hs ≡ keys_in gs) }
    ensures other_names { (fs gs : Fields)
        → ¬ (keys_in fs ≡ keys_in gs) → join (T.Object fs) (T.Object gs) ≡ None }
    ensures other_kinds { (s t : CelType) → IsBare s → IsBare t → ¬ IsTrue (are_of_one_kind s t) → join s t ≡ None }
{}

/// The join. If the left type takes the right one, it is the left one, which is shared and not made anew.
fn join_or_share(
    alloc: Global,
    left: &CelType,
    right: &CelType,
) -> Result<Option<CelType>, AllocError>
    ensures { IfOk result (λ joined. joined ≡ join left.now right.now) }
{
    if assignable(right, left) {
        return Ok(Some(left.copy()?));
    }
    join_types(alloc, left, right)
}

#[cycle(join_types)]
fn join_types(alloc: Global, left: &CelType, right: &CelType) -> Result<Option<CelType>, AllocError>
    ensures { IfOk result (λ joined. joined ≡ join left.now right.now) }
{
    match left {
        CelType::Never => Ok(Some(right.copy()?)),
        CelType::Null => match right {
            CelType::Never => Ok(Some(CelType::Null)),
            CelType::Null => Ok(Some(CelType::Null)),
            CelType::Nullable(_) => Ok(Some(right.copy()?)),
            _ => nullable(alloc, Some(right.copy()?)),
        },
        CelType::Nullable(inner) => match right {
            CelType::Never => Ok(Some(left.copy()?)),
            CelType::Null => Ok(Some(left.copy()?)),
            CelType::Nullable(other) => {
                let joined = join_types(alloc, inner.get(), other.get())?;
                nullable(alloc, joined)
            }
            _ => {
                let joined = join_types(alloc, inner.get(), right)?;
                nullable(alloc, joined)
            }
        },
        _ => join_bare(alloc, left, right),
    }
}

/// Joins a type that is none of Never, Null and Nullable with any other.
#[cycle(join_types)]
fn join_bare(alloc: Global, left: &CelType, right: &CelType) -> Result<Option<CelType>, AllocError>
    requires { IsBare left.now }
    ensures { IfOk result (λ joined. joined ≡ join left.now right.now) }
{
    let inside = innermost(right);
    match inside {
        CelType::Never => {
            let own = left.copy()?;
            wrapped(alloc, right, Some(own))
        }
        CelType::Null => {
            let joined = nullable(alloc, Some(left.copy()?))?;
            wrapped(alloc, right, joined)
        }
        _ => {
            let joined = join_kinds(alloc, left, inside)?;
            wrapped(alloc, right, joined)
        }
    }
}

/// A type without the Nullables around it.
fn innermost(cel_type: &CelType) -> &CelType
    ensures inside { IsInside cel_type.now result.now }
    ensures bare { (t : CelType) → result.now ≡ T.Nullable t → ⊥ }
{
    match cel_type {
        CelType::Nullable(inner) => innermost(inner.get()),
        _ => cel_type,
    }
}

/// As many Nullables around a join as there are around a type.
fn wrapped(
    alloc: Global,
    cel_type: &CelType,
    joined: Option<CelType>,
) -> Result<Option<CelType>, AllocError>
    ensures { IfOk result (λ r. r ≡ wrapped cel_type.now joined) }
{
    match cel_type {
        CelType::Nullable(inner) => {
            let joined = wrapped(alloc, inner.get(), joined)?;
            nullable(alloc, joined)
        }
        _ => Ok(joined),
    }
}

/// Joins two types of one kind, neither of which admits null.
#[cycle(join_types)]
fn join_kinds(alloc: Global, left: &CelType, right: &CelType) -> Result<Option<CelType>, AllocError>
    ensures { IfOk result (λ joined. joined ≡ join_same_kind left.now right.now) }
{
    match left {
        CelType::Bool => Ok(matches!(right, CelType::Bool).then_some(CelType::Bool)),
        CelType::Int => Ok(matches!(right, CelType::Int).then_some(CelType::Int)),
        CelType::Uint => Ok(matches!(right, CelType::Uint).then_some(CelType::Uint)),
        CelType::Timestamp => {
            Ok(matches!(right, CelType::Timestamp).then_some(CelType::Timestamp))
        }
        CelType::Duration => Ok(matches!(right, CelType::Duration).then_some(CelType::Duration)),
        CelType::Opaque => Ok(matches!(right, CelType::Opaque).then_some(CelType::Opaque)),
        CelType::Text { max } => match right {
            CelType::Text { max: other } => Ok(Some(CelType::Text {
                max: (*max).max(*other),
            })),
            _ => Ok(None),
        },
        CelType::List { max, plain, item } => join_list(alloc, item.get(), *max, *plain, right),
        CelType::Map { max, key_max, item } => join_map(alloc, item.get(), *max, *key_max, right),
        CelType::Object { fields } => match right {
            CelType::Object { fields: others } => join_objects(alloc, fields.get(), others.get()),
            _ => Ok(None),
        },
        _ => Ok(None),
    }
}

#[cycle(join_types)]
fn join_list(
    alloc: Global,
    item: &CelType,
    max: u32,
    plain: bool,
    right: &CelType,
) -> Result<Option<CelType>, AllocError>
    ensures { IfOk result (λ joined. joined ≡ join_same_kind (T.List max plain item.now) right.now) }
{
    match right {
        CelType::List {
            max: other_max,
            plain: other_plain,
            item: other,
        } => {
            let joined = join_types(alloc, item, other.get())?;
            list_of(alloc, max.max(*other_max), plain && *other_plain, joined)
        }
        _ => Ok(None),
    }
}

#[cycle(join_types)]
fn join_map(
    alloc: Global,
    item: &CelType,
    max: u32,
    key_max: u32,
    right: &CelType,
) -> Result<Option<CelType>, AllocError>
    ensures { IfOk result (λ joined. joined ≡ join_same_kind (T.Map max key_max item.now) right.now) }
{
    match right {
        CelType::Map {
            max: other_max,
            key_max: other_key_max,
            item: other,
        } => {
            let joined = join_types(alloc, item, other.get())?;
            map_of(
                alloc,
                max.max(*other_max),
                key_max.max(*other_key_max),
                joined,
            )
        }
        _ => Ok(None),
    }
}

#[cycle(join_types)]
fn join_objects(
    alloc: Global,
    fields: &TextMap<Field<CelType>>,
    others: &TextMap<Field<CelType>>,
) -> Result<Option<CelType>, AllocError>
    ensures { IfOk result (λ joined. joined ≡ option_map (λ hs. T.Object hs) (joined_fields fields.now others.now)) }
{
    match join_fields(alloc, fields, others)? {
        Some(fields) => Ok(Some(CelType::Object {
            fields: Shared::new(alloc, fields)?,
        })),
        None => Ok(None),
    }
}

/// Joins field by field, if both objects have the same names.
#[cycle(join_types)]
fn join_fields(
    alloc: Global,
    fields: &TextMap<Field<CelType>>,
    others: &TextMap<Field<CelType>>,
) -> Result<Option<TextMap<Field<CelType>>>, AllocError>
    ensures { IfOk result (λ joined. joined ≡ joined_fields fields.now others.now) }
{
    let mut joined = Vec::new(alloc);
    let mut rest = others.as_slice();
    for field in fields.as_slice() {
        match rest {
            [other, more @ ..] => {
                if field.key.as_str() != other.key.as_str() {
                    return Ok(None);
                }
                let required = field.value.required && other.value.required;
                match join_types(alloc, &field.value.cel_type, &other.value.cel_type)? {
                    Some(cel_type) => {
                        joined.push(keyed(&field.key, Field { required, cel_type })?)?;
                    }
                    None => return Ok(None),
                }
                rest = more;
            }
            [] => return Ok(None),
        }
    }
    if rest.is_empty() {
        Ok(Some(TextMap::from_vec(joined)))
    } else {
        Ok(None)
    }
}

fn nullable(alloc: Global, joined: Option<CelType>) -> Result<Option<CelType>, AllocError>
    ensures { IfOk result (λ r. r ≡ option_map (λ t. T.Nullable t) joined) }
{
    match joined {
        Some(cel_type) => Ok(Some(CelType::Nullable(Shared::new(alloc, cel_type)?))),
        None => Ok(None),
    }
}

fn list_of(
    alloc: Global,
    max: u32,
    plain: bool,
    joined: Option<CelType>,
) -> Result<Option<CelType>, AllocError>
    ensures { IfOk result (λ r. r ≡ option_map (λ t. T.List max plain t) joined) }
{
    match joined {
        Some(item) => Ok(Some(CelType::List {
            max,
            plain,
            item: Shared::new(alloc, item)?,
        })),
        None => Ok(None),
    }
}

fn map_of(
    alloc: Global,
    max: u32,
    key_max: u32,
    joined: Option<CelType>,
) -> Result<Option<CelType>, AllocError>
    ensures { IfOk result (λ r. r ≡ option_map (λ t. T.Map max key_max t) joined) }
{
    match joined {
        Some(item) => Ok(Some(CelType::Map {
            max,
            key_max,
            item: Shared::new(alloc, item)?,
        })),
        None => Ok(None),
    }
}
