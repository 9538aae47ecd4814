//! The members of a review's request.

ghost use Rattle.std.specs.Prelude.{◌≡◌, codes};
ghost use Rattle.serde_json.specs.Find.{get};

use base_containers::Part;

/// The members of a request that are read, each looked up once.
#[derive(Drop)]
pub struct RequestMembers<'t, 'a> {
    pub request: Part<'t, 'a>,
    pub uid: Option<Part<'t, 'a>>,
    pub kind: Option<Part<'t, 'a>>,
    pub resource: Option<Part<'t, 'a>>,
    pub sub_resource: Option<Part<'t, 'a>>,
    pub name: Option<Part<'t, 'a>>,
    pub namespace: Option<Part<'t, 'a>>,
    pub operation: Option<Part<'t, 'a>>,
    pub user_info: Option<Part<'t, 'a>>,
    pub dry_run: Option<Part<'t, 'a>>,
    pub object: Option<Part<'t, 'a>>,
    pub old_object: Option<Part<'t, 'a>>,
    ghost is_uid: { uid ≡ get (codes "uid") request },
    ghost is_kind: { kind ≡ get (codes "kind") request },
    ghost is_resource: { resource ≡ get (codes "resource") request },
    ghost is_sub_resource: { sub_resource ≡ get (codes "subResource") request },
    ghost is_name: { name ≡ get (codes "name") request },
    ghost is_namespace: { namespace ≡ get (codes "namespace") request },
    ghost is_operation: { operation ≡ get (codes "operation") request },
    ghost is_user_info: { user_info ≡ get (codes "userInfo") request },
    ghost is_dry_run: { dry_run ≡ get (codes "dryRun") request },
    ghost is_object: { object ≡ get (codes "object") request },
    ghost is_old_object: { old_object ≡ get (codes "oldObject") request },
}

impl<'t, 'a> RequestMembers<'t, 'a> {
    pub fn new(request: Part<'t, 'a>) -> RequestMembers<'t, 'a>
        ensures { result.request ≡ request.entry }
    {
        RequestMembers {
            uid: request.get("uid"),
            kind: request.get("kind"),
            resource: request.get("resource"),
            sub_resource: request.get("subResource"),
            name: request.get("name"),
            namespace: request.get("namespace"),
            operation: request.get("operation"),
            user_info: request.get("userInfo"),
            dry_run: request.get("dryRun"),
            object: request.get("object"),
            old_object: request.get("oldObject"),
            request,
        }
    }
}
