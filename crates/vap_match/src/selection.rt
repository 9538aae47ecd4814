//! Which requests rules choose by their selectors, and which they match.

ghost use Rattle.std.specs.Prelude.{◌≡◌};
ghost use Rattle.vap_match.specs.Select.{lent_labels};
ghost use Rattle.vap_match.specs.Namespaces.{own_labels};
ghost use Rattle.vap_match.specs.Choose.{passes, selects_namespace, selects_document, selects_either, selects_object, matches};

use crate::coverage::{covers, is_cluster, is_namespace};
use crate::label_selection::selects;
use crate::labels::Labels;
use crate::open_request::{OpenRequest, Subject};
use crate::rules::Rules;
use crate::selector::Selector;

/// Whether rules match a request: they cover it, and they select its namespace, for which these labels are held, and an
/// object of it.
pub fn matches(rules: &Rules, request: &OpenRequest<'_, '_, '_>, held: &Labels<'_, '_>) -> bool
    ensures { result ≡ matches rules.now request.now.request.now.admission (lent_labels held.now) }
{
    covers(rules, request.request)
        && selects_namespace(rules, request, held)
        && selects_object(rules, request)
}

/// Whether rules select the namespace of a request, for which these labels are held, or the Namespace that the request is on.
pub fn selects_namespace(
    rules: &Rules,
    request: &OpenRequest<'_, '_, '_>,
    held: &Labels<'_, '_>,
) -> bool
    ensures { result ≡ selects_namespace rules.now request.now.request.now.admission (lent_labels held.now) }
{
    let admission = request.request.admission();
    if is_namespace(admission) {
        passes(&rules.namespace_selector, own_labels(request))
    } else {
        is_cluster(admission) || passes(&rules.namespace_selector, held)
    }
}

fn passes(selector: &Option<Selector>, labels: &Labels<'_, '_>) -> bool
    ensures { result ≡ passes selector.now (lent_labels labels.now) }
{
    match selector {
        Some(selector) => selects(selector, labels),
        None => true,
    }
}

/// Whether rules select an object of a request.
pub fn selects_object(rules: &Rules, request: &OpenRequest<'_, '_, '_>) -> bool
    ensures { result ≡ selects_object rules.now request.now.request.now.admission }
{
    match &rules.object_selector {
        Some(selector) => selects_either(selector, request),
        None => true,
    }
}

fn selects_either(selector: &Selector, request: &OpenRequest<'_, '_, '_>) -> bool
    ensures { result ≡ selects_either selector.now request.now.request.now.admission }
{
    selects_document(selector, &request.object) || selects_document(selector, &request.old_object)
}

fn selects_document(selector: &Selector, subject: &Subject<'_, '_>) -> bool
    ensures { result ≡ selects_document selector.now subject.now.document }
{
    match &subject.document {
        Some(_) => selects(selector, &subject.labels),
        None => false,
    }
}

/// The labels of the Namespace that a request is on.
fn own_labels<'r, 't, 'a>(request: &'r OpenRequest<'_, 't, 'a>) -> &'r Labels<'t, 'a>
    ensures { lent_labels result.now ≡ own_labels request.now.request.now.admission }
{
    if request.request.admission().operation.as_str() == "DELETE" {
        &request.old_object.labels
    } else {
        &request.object.labels
    }
}
