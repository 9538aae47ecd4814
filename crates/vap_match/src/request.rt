//! Requests.

ghost use Rattle.std.specs.Prelude.{◌≡◌, IfOk, option_and_then};
ghost use Rattle.vap_match.specs.Requests.{document_in, unless_null, object_of, old_object_of};
ghost use Rattle.vap_match.specs.Within.{IsWithin};

use base_containers::{Document, Items, Part, Shared, Text, TextMap};
use std::alloc::AllocError;
use std::marker::Model;

/// The kind of a request's object.
#[derive(Drop)]
pub struct Kind {
    pub group: Text,
    pub version: Text,
    pub kind: Text,
}

/// The resource that a request is on.
#[derive(Drop)]
pub struct Resource {
    pub group: Text,
    pub version: Text,
    pub resource: Text,
}

/// Whose request it is.
#[derive(Drop)]
pub struct UserInfo {
    pub username: Text,
    pub uid: Text,
    pub groups: Items<Text>,
    pub extra: TextMap<Items<Text>>,
}

/// What a review asks to be admitted, with the review.
pub struct Admission {
    pub uid: Text,
    pub kind: Kind,
    pub resource: Resource,
    pub sub_resource: Text,
    pub name: Text,
    pub namespace: Text,
    pub operation: Text,
    pub user_info: UserInfo,
    pub dry_run: bool,
    pub review: Document,
}

impl Drop for Admission {
    fn drop(self) {
        let Admission {
            uid: _uid,
            kind: _kind,
            resource: _resource,
            sub_resource: _sub_resource,
            name: _name,
            namespace: _namespace,
            operation: _operation,
            user_info: _user_info,
            dry_run: _dry_run,
            review: _review,
        } = self;
    }
}

/// A request, which may have several owners. Contracts see it as what it asks: that this is within the limits is kept with it.
pub struct Request {
    pub(crate) admission: Shared<Admission>,
}

impl Drop for Request {
    fn drop(self) {
        let Request {
            admission: _admission,
        } = self;
    }
}

impl Model for Request {
    ghost use Rattle.std.specs.Coded.{codes};
    ghost use Rattle.vap_match.specs.contracts.request.Admission as of_admissions;
    ghost use Rattle.vap_match.specs.Within.{Asked, IsWithin};

    ghost Value = { Asked };

    ghost coded = { Prim.hlevel (codes, of_admissions.the_row.coded) };

    ghost view = { λ r. record { admission = r.admission } };

    ghost invariant = { λ r. IsWithin r.admission };
}

impl Request {
    /// What is asked, which is within the limits.
    pub fn admission(&self) -> &Admission
        ensures exact { result.now ≡ self.now.admission }
        ensures within { IsWithin result.now }
    {
        self.admission.get()
    }

    /// An equal request: one more owner of the same.
    pub fn copy(&self) -> Result<Request, AllocError>
        ensures { IfOk result (λ request. request ≡ self.now) }
    {
        Ok(Request {
            admission: self.admission.share()?,
        })
    }
}

impl Admission {
    /// The object as it is to be, of the review that is open; there is none on DELETE.
    pub fn object<'t, 'a>(&self, review: &Part<'t, 'a>) -> Option<Part<'t, 'a>>
        requires { review.now ≡ self.now.review }
        ensures { result ≡ object_of self.now }
    {
        if self.operation.as_str() == "DELETE" {
            None
        } else {
            document_in(review, "object")
        }
    }

    /// The object as it was, of the review that is open; there is none on CREATE.
    pub fn old_object<'t, 'a>(&self, review: &Part<'t, 'a>) -> Option<Part<'t, 'a>>
        requires { review.now ≡ self.now.review }
        ensures { result ≡ old_object_of self.now }
    {
        if self.operation.as_str() == "CREATE" {
            None
        } else {
            document_in(review, "oldObject")
        }
    }
}

/// A document that came with a request, unless it is null.
fn document_in<'t, 'a>(review: &Part<'t, 'a>, name: &str) -> Option<Part<'t, 'a>>
    ensures { result ≡ document_in name.now review.now }
{
    match review.get("request") {
        Some(request) => unless_null(request.get(name)),
        None => None,
    }
}

fn unless_null<'t, 'a>(found: Option<Part<'t, 'a>>) -> Option<Part<'t, 'a>>
    ensures { result ≡ option_and_then unless_null found.entry }
{
    match found {
        Some(document) => {
            if document.is_null() {
                None
            } else {
                Some(document)
            }
        }
        None => None,
    }
}
