//! The keywords that are read of schemas, and the fault that a schema has itself.

ghost use Rattle.std.specs.Prelude.{◌≡◌};
ghost use Rattle.vap_schema.specs.SchemaNames.{keyword_name};
ghost use Rattle.vap_schema.specs.Keywords.{fault_of};

use crate::schema_fault::SchemaFault;

/// A keyword that some schema has.
#[derive(Clone, Copy)]
pub enum Keyword {
    Reference,
    Nullable,
    Type,
    Format,
    MaxLength,
    MaxItems,
    ListType,
    Items,
    Properties,
    Required,
    AdditionalProperties,
    MaxProperties,
    PreserveUnknownFields,
    IntOrString,
}

impl Keyword {
    /// The name under which a schema has it.
    pub fn name(self) -> &'static str
        ensures { result.now ≡ keyword_name self }
    {
        match self {
            Keyword::Reference => "$ref",
            Keyword::Nullable => "nullable",
            Keyword::Type => "type",
            Keyword::Format => "format",
            Keyword::MaxLength => "maxLength",
            Keyword::MaxItems => "maxItems",
            Keyword::ListType => "x-kubernetes-list-type",
            Keyword::Items => "items",
            Keyword::Properties => "properties",
            Keyword::Required => "required",
            Keyword::AdditionalProperties => "additionalProperties",
            Keyword::MaxProperties => "maxProperties",
            Keyword::PreserveUnknownFields => "x-kubernetes-preserve-unknown-fields",
            Keyword::IntOrString => "x-kubernetes-int-or-string",
        }
    }
}

/// The fault that a schema has itself, whatever the schemas inside it have.
#[derive(Clone, Copy)]
pub enum OwnFault {
    /// It is no object.
    NoObject,
    /// Nothing says what is there.
    NoType,
    /// A keyword is not understood, or may not be there, or is needed and absent.
    Keyword(Keyword),
}

impl OwnFault {
    /// The fault that is reported.
    pub fn fault(self) -> SchemaFault
        ensures { result ≡ fault_of self }
    {
        match self {
            OwnFault::NoType => SchemaFault::NoType,
            OwnFault::NoObject | OwnFault::Keyword(_) => SchemaFault::BadKeyword,
        }
    }
}
