//! The verdict on a request.

ghost use Rattle.std.specs.Prelude.{◌≡◌, ◌≤◌, [], IfOk, IsErrOf, codes};
ghost use Rattle.std.specs.List.{All};
ghost use Rattle.std.specs.Option.{option_copied};
ghost use Rattle.base_containers.specs.declared.failed.Failed.TheVariants.{Fault};
ghost use Rattle.cel_machine.specs.declared.fault.RunFault.TheVariants.{Pattern};
ghost use Rattle.cel_value.specs.declared.cel_type.CelType as type;
ghost use Rattle.vap_policy_verdict.specs.Verdicts.{unfit_verdict};
ghost use Rattle.vap_schema.specs.FitNames.{fit_fault_text};
ghost use Rattle.vap_schema_conformance.specs.Conformance.{fault_in};
ghost use Rattle.vap_match.specs.Requests.{object_of};
ghost use Rattle.vap_read_objects.specs.OfKind.{labels_in};
ghost use Rattle.vap_policy_programs.specs.Held.{value_at};
ghost use Rattle.vap_policy_set.specs.Ready.{IsReadyAt, type_at};
ghost use Rattle.vap_policy_set.specs.Sets.{kinds_of, namespace_in, policies_of};
ghost use Rattle.vap_policy.specs.Evaluations.{budget, found_by};
ghost use Rattle.vap_policy.specs.Judging.{asked_of, evaluations_of, of_policies, verdict_at, verdict_by, verdict_of};
ghost use Rattle.vap_policy.specs.Matched.{matched_by};
ghost use Rattle.vap_policy.specs.PassedOver.{NoneIsPassedOver};
ghost use Rattle.vap_policy.specs.RequestPatterns.{KindMayMatch, MayMatch, OneMayMatch};
ghost use Rattle.vap_policy.specs.Places.{kind_at};
ghost use Rattle.vap_policy.specs.Priced.{ArePriced};
ghost use Rattle.vap_policy.specs.Ready.{IsCase};
ghost use Rattle.vap_policy.specs.Shown.{case_of};

use crate::case::Case;
use crate::evaluations::{BUDGET, Judging};
use crate::findings::Findings;
use crate::judge_error::JudgeError;
use crate::matched::matched_in;
use crate::places::{is_exempt, kind_at};
use crate::workspace::Workspace;
use base_containers::{Part, Shared};
use cel_machine::Matchers;
use cel_value::CelType;
use std::alloc::{AllocError, Global};
use vap_match::{OpenRequest, Request};
use vap_policy_programs::held_at;
use vap_policy_set::{BoundPolicy, PolicySet};
use vap_policy_verdict::{Verdict, unfit_verdict};
use vap_read_objects::{Kind, labels_in};
use vap_schema::FitFault;
use vap_schema_conformance::fault_of;

/// The verdict on a case by these policies, among them all that match.
fn judge_case(
    alloc: Global,
    case: &Case<'_>,
    policies: &[Shared<BoundPolicy>],
    matchers: &mut Matchers,
) -> Result<Verdict, JudgeError>
    requires case { IsCase case.now }
    requires asked { of_policies (case_of case.now) policies.now ≡ asked_of (case_of case.now) }
    requires ready { All (IsReadyAt case.now.set.now (case_of case.now).kind) policies.now }
    ensures verdict { IfOk result (λ verdict. verdict
        ≡ verdict_by case.now.set.now.events (found_by (evaluations_of (case_of case.now)))) }
    ensures spent { IfOk result (λ verdict. verdict.charged ≤ budget) }
    ensures pattern { IsErrOf result (Fault Pattern) → OneMayMatch (evaluations_of (case_of case.now)) }
{
    let findings = Findings::new(alloc);
    let mut judging = Judging {
        alloc,
        case,
        matchers,
        findings,
        left: BUDGET,
    };
    judging.policies(policies)?;
    Ok(judging.findings.verdict(alloc, case.set.events())?)
}

/// The verdict if nothing is evaluated.
fn without_evaluation(alloc: Global, set: &PolicySet) -> Result<Verdict, AllocError>
    ensures { IfOk result (λ verdict. verdict ≡ verdict_by set.now.events (found_by [])) }
{
    Findings::new(alloc).verdict(alloc, set.events())
}

/// The type of a request's objects: Opaque, if the kind is not known.
fn type_at<'a>(kind: Option<&'a Kind>, opaque: &'a CelType) -> &'a CelType
    requires { opaque.now ≡ type.Opaque }
    ensures { result.now ≡ type_at (option_copied kind.entry) }
{
    match kind {
        Some(kind) => match &kind.object_type {
            Some(cel_type) => cel_type,
            None => opaque,
        },
        None => opaque,
    }
}

/// The verdict if the object is no value of its type.
fn unfit(alloc: Global, set: &PolicySet, fault: FitFault) -> Result<Verdict, AllocError>
    ensures { IfOk result (λ verdict. verdict ≡ unfit_verdict (fit_fault_text fault) set.now.events) }
{
    let message = format!(in alloc; "{fault}")?;
    unfit_verdict(alloc, message.as_str(), set.events())
}

/// Why the object of a request is no value of a type, if it has one.
fn object_fault(
    alloc: Global,
    cel_type: &CelType,
    request: &OpenRequest<'_, '_, '_>,
) -> Result<Option<FitFault>, AllocError>
    ensures { IfOk result (λ found. found
        ≡ fault_in (value_at (codes "object") cel_type.now (object_of request.now.request.now.admission))) }
{
    match request.object() {
        Some(document) => fault_of(alloc, document, cel_type, "object"),
        None => Ok(None),
    }
}

/// The verdict on a request of a kind, if it is known, if no policy matches: only its object is looked at, and no value is made.
fn judge_unmatched(
    alloc: Global,
    set: &PolicySet,
    request: &OpenRequest<'_, '_, '_>,
    kind: Option<&Kind>,
) -> Result<Verdict, AllocError>
    requires { matched_by request.now.request.now.admission
        (labels_in (namespace_in request.now.request.now.admission.namespace set.now)) (policies_of set.now) ≡ [] }
    ensures verdict { IfOk result (λ verdict. verdict ≡ verdict_at set.now request.now.request.now.admission (option_copied kind.entry)) }
    ensures spent { IfOk result (λ verdict. verdict.charged ≤ budget) }
{
    let opaque = CelType::Opaque;
    match object_fault(alloc, type_at(kind, &opaque), request)? {
        None => without_evaluation(alloc, set),
        Some(fault) => unfit(alloc, set, fault),
    }
}

/// The verdict on a request of a kind, if it is known.
fn judge_at(
    alloc: Global,
    set: &PolicySet,
    request: &OpenRequest<'_, '_, '_>,
    kind: Option<&Kind>,
    matchers: &mut Matchers,
) -> Result<Verdict, JudgeError>
    requires { option_copied kind ≡ kind_at (kinds_of set.now) request.now.request.now.admission }
    ensures verdict { IfOk result (λ verdict. verdict ≡ verdict_at set.now request.now.request.now.admission (option_copied kind.entry)) }
    ensures spent { IfOk result (λ verdict. verdict.charged ≤ budget) }
    ensures pattern { IsErrOf result (Fault Pattern) → KindMayMatch set.now request.now.request.now.admission (option_copied kind.entry) }
{
    let name = request.request.admission().namespace.as_str();
    let namespace = set.namespace(alloc, name)?;
    let labels = labels_in(namespace);
    let policies = matched_in(set, request, &labels);
    if policies.is_empty() {
        return Ok(judge_unmatched(alloc, set, request, kind)?);
    }
    let opaque = CelType::Opaque;
    let cel_type = type_at(kind, &opaque);
    match held_at(alloc, set.fixed_types(), namespace, cel_type, request) {
        Ok(Ok(held)) => {
            let case = Case::new(set, request, kind, labels, &held);
            judge_case(alloc, &case, policies, matchers)
        }
        Ok(Err(fault)) => Ok(unfit(alloc, set, fault)?),
        Err(error) => Err(JudgeError::from(error)),
    }
}

/// The same of a request, whose review is opened for it.
fn judge_opened(
    alloc: Global,
    set: &PolicySet,
    request: &Request,
    kind: Option<&Kind>,
    workspace: &mut Workspace,
) -> Result<Verdict, JudgeError>
    requires { option_copied kind ≡ kind_at (kinds_of set.now) request.now.admission }
    ensures verdict { IfOk result (λ verdict. verdict ≡ verdict_at set.now request.now.admission (option_copied kind.entry)) }
    ensures spent { IfOk result (λ verdict. verdict.charged ≤ budget) }
    ensures pattern { IsErrOf result (Fault Pattern) → KindMayMatch set.now request.now.admission (option_copied kind.entry) }
{
    let Workspace { matchers, scratch } = workspace;
    let tape = request.admission().review.tape(alloc, scratch)?;
    let open = OpenRequest::new(request, Part::new(tape.root()));
    judge_at(alloc, set, &open, kind, matchers)
}

/// The verdict of a set on a request whose review is open, as [`judge`] answers it.
#[tactic(auto, unfolding(crate::specs::Judging::verdict_of))]
pub fn judge_open(
    alloc: Global,
    set: &PolicySet,
    request: &OpenRequest<'_, '_, '_>,
    matchers: &mut Matchers,
) -> Result<Verdict, JudgeError>
    ensures exact { IfOk result (λ verdict. verdict ≡ verdict_of set.now request.now.request.now) }
    ensures none_passed_over { NoneIsPassedOver set.now request.now.request.now.admission }
    ensures priced { ArePriced set.now (kind_at (kinds_of set.now) request.now.request.now.admission) }
    ensures spent { IfOk result (λ verdict. verdict.charged ≤ budget) }
    ensures pattern { IsErrOf result (Fault Pattern) → MayMatch set.now request.now.request.now.admission }
{
    let kinds = set.kinds();
    let admission = request.request.admission();
    if is_exempt(&admission.resource) {
        return Ok(without_evaluation(alloc, set)?);
    }
    let kind = kind_at(kinds, admission);
    judge_at(alloc, set, request, kind, matchers)
}

/// The verdict of a set on a request, at the revision that is the number of the set's events. It is given up if memory runs out,
/// or if a pattern that was built before is not built again. The latter happens only if a policy runs that gives `matches` a literal
/// text. No policy that matches the request is passed over, none charges more than its price for one param, and all together charge
/// at most the request's budget: a policy whose price is more than what is left of the budget is not run, which is a failure of it.
#[tactic(auto, unfolding(crate::specs::Judging::verdict_of))]
pub fn judge(
    alloc: Global,
    set: &PolicySet,
    request: &Request,
    workspace: &mut Workspace,
) -> Result<Verdict, JudgeError>
    ensures exact { IfOk result (λ verdict. verdict ≡ verdict_of set.now request.now) }
    ensures none_passed_over { NoneIsPassedOver set.now request.now.admission }
    ensures priced { ArePriced set.now (kind_at (kinds_of set.now) request.now.admission) }
    ensures spent { IfOk result (λ verdict. verdict.charged ≤ budget) }
    ensures pattern { IsErrOf result (Fault Pattern) → MayMatch set.now request.now.admission }
{
    let kinds = set.kinds();
    let admission = request.admission();
    if is_exempt(&admission.resource) {
        return Ok(without_evaluation(alloc, set)?);
    }
    let kind = kind_at(kinds, admission);
    judge_opened(alloc, set, request, kind, workspace)
}
