//! What expressions name, with the types.

ghost use Rattle.std.specs.Prelude.{◌≡◌, ◌++◌, ◌∷◌, [], IfOk, OnOk, codes};
ghost use Rattle.cel_value.specs.declared.cel_type.CelType as T;
ghost use Rattle.vap_policy_programs.specs.Scopes.{first_names, is_unknown, named, type_of_params, variable_name, with_variable};

use base_containers::{Items, Keyed, Shared, Text};
use cel_expression::Compiled;
use cel_value::CelType;
use std::alloc::{AllocError, Global};

/// The types of what every policy may name at a kind. That of the object is shared by all that name it.
#[derive(Drop)]
pub struct KindTypes {
    /// Of the object as it is to be, and as it was. What has no schema is Opaque.
    pub object: Shared<CelType>,
    pub request: CelType,
    /// Of the object of the request's namespace.
    pub namespace: Shared<CelType>,
}

/// What a policy's params are.
#[derive(Drop)]
pub enum ParamsType {
    /// It names no kind of them.
    Absent,
    /// It names a kind that is not known.
    Unknown,
    Known(Shared<CelType>),
}

impl ParamsType {
    pub(crate) fn is_unknown(&self) -> bool
        ensures { result ≡ is_unknown self.now }
    {
        match self {
            ParamsType::Unknown => true,
            ParamsType::Absent | ParamsType::Known(_) => false,
        }
    }
}

/// Names with their types, in the order of their slots.
pub type NameTypes = Shared<Items<Keyed<CelType>>>;

fn put_name(
    alloc: Global,
    name: &str,
    cel_type: &CelType,
    names: &mut Vec<Keyed<CelType>>,
) -> Result<(), AllocError>
    ensures { OnOk result (names.new.items ≡ names.old.items ++ named name.now cel_type.now ∷ []) }
{
    let key = Text::from_str(alloc, name)?;
    names.push(Keyed {
        key,
        value: cel_type.copy()?,
    })?;
    Ok(())
}

/// A name of what may be null.
fn put_nullable(
    alloc: Global,
    name: &str,
    inner: &Shared<CelType>,
    names: &mut Vec<Keyed<CelType>>,
) -> Result<(), AllocError>
    ensures { OnOk result (names.new.items ≡ names.old.items ++ named name.now (T.Nullable inner.now) ∷ []) }
{
    let key = Text::from_str(alloc, name)?;
    names.push(Keyed {
        key,
        value: CelType::Nullable(inner.share()?),
    })?;
    Ok(())
}

fn put_params(
    alloc: Global,
    params: &ParamsType,
    names: &mut Vec<Keyed<CelType>>,
) -> Result<(), AllocError>
    ensures { OnOk result (names.new.items ≡ names.old.items ++ named (codes "params") (type_of_params params.now) ∷ []) }
{
    match params {
        ParamsType::Known(cel_type) => put_nullable(alloc, "params", cel_type, names),
        ParamsType::Absent | ParamsType::Unknown => {
            put_name(alloc, "params", &CelType::Null, names)
        }
    }
}

/// The names that each expression of a policy sees.
#[tactic(auto, unfolding(crate::specs::Scopes::first_names))]
pub fn first_names(
    alloc: Global,
    types: &KindTypes,
    params: &ParamsType,
) -> Result<NameTypes, AllocError>
    ensures { IfOk result (λ names. names ≡ first_names types.now params.now) }
{
    let mut names = Vec::new(alloc);
    put_nullable(alloc, "object", &types.object, &mut names)?;
    put_nullable(alloc, "oldObject", &types.object, &mut names)?;
    put_name(alloc, "request", &types.request, &mut names)?;
    put_params(alloc, params, &mut names)?;
    put_nullable(alloc, "namespaceObject", &types.namespace, &mut names)?;
    Shared::new(alloc, Items::from_vec(names))
}

fn copy_names(alloc: Global, names: &[Keyed<CelType>]) -> Result<Vec<Keyed<CelType>>, AllocError>
    ensures { IfOk result (λ copies. copies.items ≡ names.now) }
{
    let mut copies = Vec::new(alloc);
    for name in names {
        put_name(alloc, name.key.as_str(), &name.value, &mut copies)?;
    }
    Ok(copies)
}

fn variable_name(alloc: Global, name: &Text) -> Result<Text, AllocError>
    ensures { IfOk result (λ text. text ≡ variable_name name.now) }
{
    let name = name.as_str();
    Ok(Text::from_string(format!(in alloc; "variables.{name}")?))
}

/// The names with one more variable.
#[tactic(auto, unfolding(crate::specs::Scopes::with_variable))]
pub fn with_variable(
    alloc: Global,
    names: &NameTypes,
    name: &Text,
    variable: &Compiled,
) -> Result<NameTypes, AllocError>
    ensures { IfOk result (λ more. more ≡ with_variable names.now name.now variable.now) }
{
    let name = variable_name(alloc, name)?;
    let mut more = copy_names(alloc, names.get().as_slice())?;
    put_name(alloc, name.as_str(), variable.cel_type(), &mut more)?;
    Shared::new(alloc, Items::from_vec(more))
}
