//! JSON documents that contracts see as what they hold.

ghost use Rattle.std.specs.Prelude.{◌≡◌};
ghost use Rattle.serde_json.specs.View.{view};

use serde_json::Value as Json;
use std::marker::Model;

/// A document, which contracts see as its data.
pub struct Document {
    json: Json,
}

impl Drop for Document {
    fn drop(self) {
        let Document { json: _json } = self;
    }
}

impl Model for Document {
    ghost use Rattle.serde_json.specs.Data.{Data};
    ghost use Rattle.serde_json.specs.View.{view as data_of};
    ghost use Rattle.base_containers.specs.DocumentCode.{document_code};

    ghost Value = { Data };

    ghost coded = { document_code };

    ghost view = { λ d. data_of d.json };
}

impl Document {
    /// The document itself, which is not copied.
    pub fn new(json: Json) -> Document
        ensures { result ≡ view json }
    {
        Document { json }
    }

    pub fn json(&self) -> &Json
        ensures { view result.now ≡ self.now }
    {
        &self.json
    }
}
