//! Documents that keep nothing but their text.

ghost use Rattle.std.specs.Prelude.{◌≡◌, IfOk, Some};
ghost use Rattle.serde_json.specs.Read.{read};
ghost use Rattle.base_containers.specs.Parts.{IsPart, data_of};
ghost use Rattle.base_containers.specs.Texts.{HasData, Opens};

use crate::acceptance::are_accepted;
use json::{Error, Scratch, Tape};
use std::alloc::{AllocError, Global};
use std::marker::Model;

/// A document, which contracts see as its data. It keeps its text alone.
#[derive(Drop)]
pub struct Document {
    text: String,
}

impl Model for Document {
    ghost use Rattle.std.specs.Prelude.{string_bytes};
    ghost use Rattle.serde_json.specs.Data.{Data};
    ghost use Rattle.base_containers.specs.DocumentCode.{document_code};
    ghost use Rattle.base_containers.specs.Texts.{data_in, HasData};

    ghost Value = { Data };

    ghost coded = { document_code };

    ghost view = { λ d. data_in (string_bytes d.text) };

    ghost invariant = { λ d. HasData (string_bytes d.text) };
}

impl Document {
    /// The document that a text is, which is copied.
    pub fn new(alloc: Global, text: &str) -> Result<Document, AllocError>
        requires { HasData text.now }
        ensures { IfOk result (λ d. read text.now ≡ Some d) }
    {
        Ok(Document {
            text: String::from_str(alloc, text)?,
        })
    }

    /// The document's tape.
    pub fn tape<'a>(
        &'a self,
        alloc: Global,
        scratch: &'a mut Scratch,
    ) -> Result<Tape<'a>, AllocError>
        ensures { IfOk result (λ tape. IsPart tape × (data_of tape ≡ self.now)) }
    {
        match Tape::parse(self.text.as_str(), scratch, Vec::new(alloc)) {
            Ok(tape) => Ok(tape),
            Err(_) => Err(AllocError),
        }
    }
}

/// The tape of a text that `serde_json` reads.
pub fn opened<'a>(
    alloc: Global,
    text: &'a str,
    scratch: &'a mut Scratch,
) -> Result<Option<Tape<'a>>, AllocError>
    ensures { IfOk result (Opens (read text.now)) }
{
    match Tape::parse(text, scratch, Vec::new(alloc)) {
        Ok(tape) => {
            if are_accepted(tape.nodes()) {
                Ok(Some(tape))
            } else {
                Ok(None)
            }
        }
        Err(Error::Invalid) => Ok(None),
        Err(_) => Err(AllocError),
    }
}
