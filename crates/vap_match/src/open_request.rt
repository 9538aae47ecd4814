//! Requests whose review is open.

ghost use Rattle.std.specs.Prelude.{◌≡◌, option_and_then};
ghost use Rattle.std.specs.Coded.{codes};
ghost use Rattle.std.specs.Option.{option_copied};
ghost use Rattle.base_containers.specs.DocumentCode.{document_code};
ghost use Rattle.vap_match.specs.Requests.{object_of, old_object_of};
ghost use Rattle.vap_match.specs.Select.{labels_of, lent_labels};

use crate::labels::{Labels, labels_of};
use crate::request::Request;
use base_containers::Part;

/// An object that came with a request, if one did, and its labels.
#[derive(Drop)]
pub struct Subject<'t, 'a> {
    pub document: Option<Part<'t, 'a>>,
    pub labels: Labels<'t, 'a>,
    ghost of_document: { lent_labels labels ≡ option_and_then labels_of document },
}

impl<'t, 'a> Subject<'t, 'a> {
    fn new(document: Option<Part<'t, 'a>>) -> Subject<'t, 'a>
        ensures { result.document ≡ document.entry }
    {
        let labels = match &document {
            Some(found) => labels_of(found),
            None => Labels { found: None },
        };
        Subject { document, labels }
    }
}

/// A request with its open review, in which its objects and their labels are looked up once.
#[derive(Drop)]
pub struct OpenRequest<'r, 't, 'a> {
    pub request: &'r Request,
    pub object: Subject<'t, 'a>,
    pub old_object: Subject<'t, 'a>,
    ghost is_object: { object.document ≡ object_of request.now.admission } by { Prim.hlevel (codes, document_code) },
    ghost is_old_object: { old_object.document ≡ old_object_of request.now.admission } by { Prim.hlevel (codes, document_code) },
}

impl<'r, 't, 'a> OpenRequest<'r, 't, 'a> {
    pub fn new(request: &'r Request, review: Part<'t, 'a>) -> OpenRequest<'r, 't, 'a>
        requires { review ≡ request.now.admission.review }
        ensures { result.request.now ≡ request.now }
    {
        let admission = request.admission();
        OpenRequest {
            request,
            object: Subject::new(admission.object(&review)),
            old_object: Subject::new(admission.old_object(&review)),
        }
    }

    /// The object as it is to be; there is none on DELETE.
    pub fn object(&self) -> Option<&Part<'t, 'a>>
        ensures { option_copied result ≡ object_of self.now.request.now.admission }
    {
        self.object.document.as_ref()
    }

    /// The object as it was; there is none on CREATE.
    pub fn old_object(&self) -> Option<&Part<'t, 'a>>
        ensures { option_copied result ≡ old_object_of self.now.request.now.admission }
    {
        self.old_object.document.as_ref()
    }
}
