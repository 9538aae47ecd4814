//! Which policies of a set match a request.

ghost use Rattle.std.specs.Prelude.{◌≡◌, Option};
ghost use Rattle.std.specs.List.{All};
ghost use Rattle.vap_match.specs.Select.{lent_labels};
ghost use Rattle.vap_policy_set.specs.Ready.{AreReadyIn, IsReadyAt};
ghost use Rattle.vap_policy_set.specs.Sets.{Holdings, policies_of};
ghost use Rattle.vap_policy.specs.Matched.{matched_by};
ghost use Rattle.vap_read_objects.specs.declared.kind.Kind.{Kind};

use base_containers::Shared;
use vap_match::{Labels, OpenRequest, matches};
use vap_policy_set::{BoundPolicy, PolicySet};

/// These policies from the first on that matches a request, for whose namespace these labels are held.
fn from_first<'a>(
    policies: &'a [Shared<BoundPolicy>],
    request: &OpenRequest<'_, '_, '_>,
    labels: &Labels<'_, '_>,
) -> &'a [Shared<BoundPolicy>]
    ensures matched { matched_by request.now.request.now.admission (lent_labels labels.now) result.now
        ≡ matched_by request.now.request.now.admission (lent_labels labels.now) policies.now }
    ensures ready { (set : Holdings) (kind : Option Kind) → All (IsReadyAt set kind) policies.now → All (IsReadyAt set kind) result.now }
{
    for (place, policy) in policies.iter().enumerate() {
        let bound = policy.get();
        let rules = &bound.policy.spec.get().match_constraints;
        if matches(rules, request, labels) {
            let (_, rest) = policies.split_at(place);
            return rest;
        }
    }
    &[]
}

/// The policies of a set that may match a request, for whose namespace these labels are held: those that are lent for its resource,
/// from the first on that matches.
pub fn matched_in<'a>(
    set: &'a PolicySet,
    request: &OpenRequest<'_, '_, '_>,
    labels: &Labels<'_, '_>,
) -> &'a [Shared<BoundPolicy>]
    ensures matched { matched_by request.now.request.now.admission (lent_labels labels.now) result.now
        ≡ matched_by request.now.request.now.admission (lent_labels labels.now) (policies_of set.now) }
    ensures ready { AreReadyIn set.now result.now }
{
    let resource = &request.request.admission().resource;
    let group = resource.group.as_str();
    let name = resource.resource.as_str();
    let policies = set.policies_on(group, name);
    from_first(policies, request, labels)
}
