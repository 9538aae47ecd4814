//! A place in a document.

ghost use Rattle.std.specs.Prelude.{◌≡◌, is_some, option_map};
ghost use Rattle.serde_json.specs.Find.{get, as_null, as_object, as_str, as_bool, as_number};
ghost use Rattle.serde_json.specs.View.{view};
ghost use Rattle.base_containers.specs.Numbers.{num_of};
ghost use Rattle.base_containers.specs.Parts.{IsPart, data_of};

use crate::number::{Number, number_in, number_of};
use json::Element;
use serde_json::Value as Json;
use std::marker::Model;

/// A document or a part of one, which is lent. Contracts see it as its data, wherever it is.
#[derive(Drop)]
pub struct Part<'t, 'a> {
    pub(crate) place: Place<'t, 'a>,
}

/// Where a document begins.
#[derive(Drop)]
pub(crate) enum Place<'t, 'a> {
    Tape(Element<'t, 'a>),
    Tree(&'a Json),
}

impl<'t, 'a> Model for Part<'t, 'a> {
    ghost use Rattle.serde_json.specs.Data.{Data};
    ghost use Rattle.base_containers.specs.DocumentCode.{document_code};
    ghost use Rattle.base_containers.specs.Places.{data_at_place, IsPlace};

    ghost Value = { Data };

    ghost coded = { document_code };

    ghost view = { λ p. data_at_place p.place };

    ghost invariant = { λ p. IsPlace p.place };
}

impl<'t, 'a> Part<'t, 'a> {
    /// The document that begins at a place of a tape.
    pub fn new(element: Element<'t, 'a>) -> Part<'t, 'a>
        requires { IsPart element }
        ensures { result ≡ data_of element.entry }
    {
        Part {
            place: Place::Tape(element),
        }
    }

    /// The document that a tree is.
    pub fn of_tree(json: &'a Json) -> Part<'t, 'a>
        ensures { result ≡ view json.now }
    {
        Part {
            place: Place::Tree(json),
        }
    }

    pub fn is_null(&self) -> bool
        ensures { result ≡ is_some (as_null self.now) }
    {
        match &self.place {
            Place::Tape(element) => element.is_null(),
            Place::Tree(json) => json.is_null(),
        }
    }

    pub fn is_object(&self) -> bool
        ensures { result ≡ is_some (as_object self.now) }
    {
        match &self.place {
            Place::Tape(element) => element.members().is_some(),
            Place::Tree(json) => json.is_object(),
        }
    }

    pub fn as_str(&self) -> Option<&'a str>
        ensures { option_map (λ s. s.now) result ≡ as_str self.now }
    {
        match &self.place {
            Place::Tape(element) => element.as_str(),
            Place::Tree(json) => json.as_str(),
        }
    }

    pub fn as_bool(&self) -> Option<bool>
        ensures { result ≡ as_bool self.now }
    {
        match &self.place {
            Place::Tape(element) => element.as_bool(),
            Place::Tree(json) => json.as_bool(),
        }
    }

    pub fn as_number(&self) -> Option<Number>
        ensures { option_map num_of result ≡ as_number self.now }
    {
        match &self.place {
            Place::Tape(element) => number_in(element.as_number()?),
            Place::Tree(json) => Some(number_of(json.as_number()?)),
        }
    }

    /// The member under a name, the last of those that have it.
    pub fn get(&self, name: &str) -> Option<Part<'t, 'a>>
        ensures { result ≡ get name.now self.now }
    {
        match &self.place {
            Place::Tape(element) => match element.get(name) {
                Some(found) => Some(Part {
                    place: Place::Tape(found),
                }),
                None => None,
            },
            Place::Tree(json) => match json.get(name) {
                Some(found) => Some(Part::of_tree(found)),
                None => None,
            },
        }
    }
}
