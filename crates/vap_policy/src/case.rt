//! What is judged.

ghost use Rattle.std.specs.Prelude.{◌≡◌, ◌&&◌};
ghost use Rattle.std.specs.Option.{option_copied};
ghost use Rattle.vap_match.specs.Choose.{selects_namespace, selects_object};
ghost use Rattle.vap_match.specs.Select.{lent_labels};
ghost use Rattle.vap_read_objects.specs.OfKind.{labels_in};
ghost use Rattle.vap_policy_set.specs.Ready.{type_at};
ghost use Rattle.vap_policy_set.specs.Sets.{kinds_of, namespace_in};
ghost use Rattle.vap_policy_programs.specs.Held.{IsHeldAt};
ghost use Rattle.vap_policy.specs.Judging.{case_with, is_matched};
ghost use Rattle.vap_policy.specs.Places.{kind_at};
ghost use Rattle.vap_policy.specs.Ready.{IsCase};
ghost use Rattle.vap_policy.specs.Shown.{case_of};

use vap_match::{Labels, OpenRequest, Rules, covers, selects_namespace, selects_object};
use vap_policy_programs::Held;
use vap_policy_set::PolicySet;
use vap_read_objects::Kind;

/// A request at a set, with its kind, if that is known, what its names hold, and the labels of its namespace.
#[derive(Drop)]
pub struct Case<'a> {
    pub set: &'a PolicySet,
    pub request: &'a OpenRequest<'a, 'a, 'a>,
    pub kind: Option<&'a Kind>,
    pub held: &'a Held,
    pub labels: Labels<'a, 'a>,
}

impl<'a> Case<'a> {
    /// A request at a set, with the labels of the Namespace that is held under the name of its own.
    pub fn new(
        set: &'a PolicySet,
        request: &'a OpenRequest<'a, 'a, 'a>,
        kind: Option<&'a Kind>,
        labels: Labels<'a, 'a>,
        held: &'a Held,
    ) -> Case<'a>
        requires kind { option_copied kind ≡ kind_at (kinds_of set.now) request.now.request.now.admission }
        requires labels { lent_labels labels ≡ labels_in (namespace_in request.now.request.now.admission.namespace set.now) }
        requires held { IsHeldAt (type_at (option_copied kind)) held.now }
        ensures is { case_of result ≡ case_with set.now request.now.request.now.admission (option_copied kind.entry) held.now }
        ensures ready { IsCase result }
    {
        Case {
            set,
            request,
            kind,
            held,
            labels,
        }
    }

    /// Whether rules match the request.
    pub fn is_matched(&self, rules: &Rules) -> bool
        requires { IsCase self.now }
        ensures { result ≡ is_matched (case_of self.now) rules.now }
    {
        covers(rules, self.request.request) && self.is_selected(rules)
    }

    /// Whether rules select the request's namespace and an object of it. Rules without selectors do, whatever these are.
    fn is_selected(&self, rules: &Rules) -> bool
        ensures { result ≡ (selects_namespace rules.now self.now.request.now.request.now.admission (lent_labels self.now.labels)
            && selects_object rules.now self.now.request.now.request.now.admission) }
    {
        if rules.namespace_selector.is_none() && rules.object_selector.is_none() {
            return true;
        }
        selects_namespace(rules, self.request, &self.labels) && selects_object(rules, self.request)
    }
}
