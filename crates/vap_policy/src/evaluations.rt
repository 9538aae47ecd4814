//! The evaluations of policies at a request, in their order.

ghost use Rattle.std.specs.Prelude.{◌≡◌, ◌≤◌, ◌+◌, Some, true, List, [], ◌∷◌, map, filter, IfOk, IsErrOf, OnOk};
ghost use Rattle.std.specs.List.{All};
ghost use Rattle.std.specs.Option.{option_copied};
ghost use Rattle.base_containers.specs.declared.failed.Failed.TheVariants.{Fault};
ghost use Rattle.cel_machine.specs.declared.fault.RunFault.TheVariants.{Pattern};
ghost use Rattle.cel_operators_applied.specs.Lent.{lent};
ghost use Rattle.cel_operators.specs.Outcomes.{slots_fit};
ghost use Rattle.cel_value.specs.declared.cel_type.CelType.{CelType};
ghost use Rattle.vap_policy_evaluation.specs.PolicyPatterns.{PolicyMayMatch};
ghost use Rattle.vap_policy_programs.specs.Pairs.{most, price_of};
ghost use Rattle.vap_policy_programs.specs.Ready.{IsReady};
ghost use Rattle.vap_policy_set.specs.Ready.{IsReadyAt};
ghost use Rattle.vap_read_objects.specs.Seen.{IsSeenAt};
ghost use Rattle.vap_policy_programs.specs.Held.{slots_of};
ghost use Rattle.vap_policy.specs.Adds.{Adds, IsWithin, Looks, case_in};
ghost use Rattle.vap_policy.specs.Evaluations.{Failed, Ran, budget, found_by, joined, misconfigured, refused};
ghost use Rattle.vap_policy.specs.Judging.{at_each, at_param, at_params, at_seen, in_place};
ghost use Rattle.vap_policy.specs.Judging.{of_binding, of_policies, of_policy};
ghost use Rattle.vap_policy.specs.Params.{is_param, place_of};
ghost use Rattle.vap_policy.specs.Ready.{CanRun, IsCase};
ghost use Rattle.vap_policy.specs.Shown.{findings_of, lent_place, rule_of as lent_rule};

use crate::case::Case;
use crate::findings::{Findings, Rule};
use crate::judge_error::JudgeError;
use crate::params::{Selection, params_of, place_of};
use base_containers::{Keyed, Shared, Text};
use cel_machine::Matchers;
use cel_value::{CelError, Value};
use std::alloc::{AllocError, Global};
use vap_policy_programs::{Pair, Programs};
use vap_policy_set::BoundPolicy;
use vap_read::{Binding, NotFoundAction, ParamRef};
use vap_read_objects::{KindParams, Param};

/// The most that the evaluations of a request may cost together, each by its price.
pub const BUDGET: u64 = 200_000_000;

/// A case, with what is found at it so far, and what is left of the request's budget.
#[derive(Drop)]
pub struct Judging<'a> {
    pub alloc: Global,
    pub case: &'a Case<'a>,
    pub matchers: &'a mut Matchers,
    pub findings: Findings,
    pub left: u64,
}

/// A value or an error, lent.
fn lent(outcome: &Result<Value, CelError>) -> Result<&Value, CelError>
    ensures { lent result ≡ outcome.now }
{
    match outcome {
        Ok(value) => Ok(value),
        Err(error) => Err(*error),
    }
}

/// What is said of a policy that is misconfigured.
#[tactic(auto, unfolding(crate::specs::Evaluations::misconfigured))]
fn misconfigured(alloc: Global, name: &str) -> Result<Text, AllocError>
    ensures { IfOk result (λ text. text ≡ misconfigured name.now) }
{
    Ok(Text::from_string(format!(in alloc; "policy is misconfigured: {name}")?))
}

impl Judging<'_> {
    /// Adds a failure with a message.
    fn fail(&mut self, rule: &Rule<'_>, message: &str) -> Result<(), JudgeError>
        requires within { IsWithin self.old }
        ensures adds { OnOk result (Adds self.old self.new (Failed (lent_rule rule.now) message.now ∷ [])) }
        ensures pattern { IsErrOf result (Fault Pattern) → ⊥ }
    {
        Ok(self.findings.fail(self.alloc, rule, message)?)
    }

    /// Adds the failure of a policy for which too little of the budget is left.
    fn refuse(&mut self, rule: &Rule<'_>) -> Result<(), JudgeError>
        requires within { IsWithin self.old }
        ensures adds { OnOk result (Adds self.old self.new (refused (lent_rule rule.now) ∷ [])) }
        ensures pattern { IsErrOf result (Fault Pattern) → ⊥ }
    {
        let message = misconfigured(self.alloc, "RequestBudget")?;
        self.fail(rule, message.as_str())
    }

    /// Runs a policy's programs with this value in `params`.
    fn run_programs(
        &mut self,
        rule: &Rule<'_>,
        programs: &Programs,
        params: &Value,
    ) -> Result<(), JudgeError>
        ghost types: { List CelType }
        requires ready { IsReady types programs.now }
        requires priced { price_of programs.now ≤ most }
        requires fit { slots_fit types (slots_of self.old.case.now.held.now params.now) ≡ true }
        requires within { self.old.findings.charged + price_of programs.now ≤ budget }
        ensures same { OnOk result ((self.new.case ≡ self.old.case) × (self.new.left ≡ self.old.left)) }
        ensures found { OnOk result (findings_of self.new.findings ≡ joined (findings_of self.old.findings) (found_by
            (Ran (lent_rule rule.now) programs.now (slots_of self.old.case.now.held.now params.now) ∷ []))) }
        ensures charged { OnOk result (self.new.findings.charged ≤ self.old.findings.charged + price_of programs.now) }
        ensures pattern { IsErrOf result (Fault Pattern) → PolicyMayMatch programs.now }
    {
        let held = self.case.held;
        let lent: [Result<&Value, CelError>; 5] = [
            Ok(&held.object),
            lent(&held.old_object),
            Ok(&held.request),
            Ok(params),
            Ok(&held.namespace),
        ];
        let mut failures = Vec::new(self.alloc);
        let mut notes = Vec::new(self.alloc);
        let charged = vap_policy_evaluation::judge(
            self.alloc,
            rule.failure_policy,
            programs,
            &lent,
            self.matchers,
            &mut failures,
            &mut notes,
        )?;
        self.findings.add_failures(rule, failures)?;
        self.findings.add_notes(rule, notes)?;
        self.findings.charged += charged;
        Ok(())
    }

    /// Runs a policy's programs with this value in `params`, unless their price is more than what is left of the budget.
    fn run(
        &mut self,
        rule: &Rule<'_>,
        programs: &Programs,
        params: &Value,
    ) -> Result<(), JudgeError>
        ghost types: { List CelType }
        requires ready { IsReady types programs.now }
        requires priced { price_of programs.now ≤ most }
        requires fit { slots_fit types (slots_of self.old.case.now.held.now params.now) ≡ true }
        requires within { IsWithin self.old }
        ensures adds { OnOk result (Adds self.old self.new
            (Ran (lent_rule rule.now) programs.now (slots_of self.old.case.now.held.now params.now) ∷ [])) }
        ensures pattern { IsErrOf result (Fault Pattern) → Looks self.old
            (Ran (lent_rule rule.now) programs.now (slots_of self.old.case.now.held.now params.now) ∷ []) }
    {
        if programs.price > self.left {
            return self.refuse(rule);
        }
        self.left -= programs.price;
        self.run_programs(rule, programs, params)
    }

    /// Evaluates a policy at a param.
    fn param(
        &mut self,
        rule: &Rule<'_>,
        programs: &Programs,
        param: &Param,
    ) -> Result<(), JudgeError>
        ghost types: { List CelType }
        requires ready { IsReady types programs.now }
        requires priced { price_of programs.now ≤ most }
        requires fit { IfOk param.now.outcome (λ v. slots_fit types (slots_of self.old.case.now.held.now v) ≡ true) }
        requires budget { IsWithin self.old }
        ensures adds { OnOk result (Adds self.old self.new
            (at_seen (case_in self.old) (lent_rule rule.now) programs.now param.now.outcome ∷ [])) }
        ensures pattern { IsErrOf result (Fault Pattern) → Looks self.old
            (at_seen (case_in self.old) (lent_rule rule.now) programs.now param.now.outcome ∷ []) }
    {
        match &param.outcome {
            Ok(value) => self.run(rule, programs, value),
            Err(fault) => {
                let message = format!(in self.alloc; "{fault}")?;
                self.fail(rule, message.as_str())
            }
        }
    }

    /// Evaluates a policy at each of some objects of a kind that are its params.
    fn each_of(
        &mut self,
        rule: &Rule<'_>,
        programs: &Programs,
        params: &[Shared<Param>],
        selection: &Selection<'_>,
    ) -> Result<(), JudgeError>
        ghost types: { List CelType }
        requires ready { CanRun (case_in self.old) (Some selection.now.params.now) types programs.now }
        requires seen { All (IsSeenAt selection.now.params.now.cel_type) params.now }
        requires budget { IsWithin self.old }
        ensures adds { OnOk result (Adds self.old self.new
            (map (at_param (case_in self.old) (lent_rule rule.now) programs.now selection.now.params.now.cel_type)
            (filter (is_param (lent_place selection.now.place) selection.now.reference.now) (map (λ p. p.object) params.now)))) }
        ensures pattern { IsErrOf result (Fault Pattern) → Looks self.old
            (map (at_param (case_in self.old) (lent_rule rule.now) programs.now selection.now.params.now.cel_type)
            (filter (is_param (lent_place selection.now.place) selection.now.reference.now) (map (λ p. p.object) params.now))) }
    {
        for param in params {
            let fitted = param.get();
            if selection.takes(fitted.object.get()) {
                self.param(rule, programs, fitted)?;
            }
        }
        Ok(())
    }

    /// Evaluates a policy at each of the objects of a kind that are its params.
    fn each(
        &mut self,
        rule: &Rule<'_>,
        programs: &Programs,
        selection: &Selection<'_>,
    ) -> Result<(), JudgeError>
        ghost types: { List CelType }
        requires ready { CanRun (case_in self.old) (Some selection.now.params.now) types programs.now }
        requires budget { IsWithin self.old }
        ensures adds { OnOk result (Adds self.old self.new
            (map (at_param (case_in self.old) (lent_rule rule.now) programs.now selection.now.params.now.cel_type)
            (filter (is_param (lent_place selection.now.place) selection.now.reference.now) selection.now.params.now.objects))) }
        ensures pattern { IsErrOf result (Fault Pattern) → Looks self.old
            (map (at_param (case_in self.old) (lent_rule rule.now) programs.now selection.now.params.now.cel_type)
            (filter (is_param (lent_place selection.now.place) selection.now.reference.now) selection.now.params.now.objects)) }
    {
        for block in selection.params.blocks() {
            self.each_of(rule, programs, block.get().as_slice(), selection)?;
        }
        Ok(())
    }

    /// Evaluates a policy at its params, if there are any.
    fn selected(
        &mut self,
        rule: &Rule<'_>,
        programs: &Programs,
        selection: &Selection<'_>,
    ) -> Result<(), JudgeError>
        ghost types: { List CelType }
        requires ready { CanRun (case_in self.old) (Some selection.now.params.now) types programs.now }
        requires budget { IsWithin self.old }
        ensures adds { OnOk result (Adds self.old self.new
            (at_each (case_in self.old) (lent_rule rule.now) programs.now selection.now.params.now.cel_type
            selection.now.reference.now.parameter_not_found_action
            (filter (is_param (lent_place selection.now.place) selection.now.reference.now) selection.now.params.now.objects))) }
        ensures pattern { IsErrOf result (Fault Pattern) → Looks self.old
            (at_each (case_in self.old) (lent_rule rule.now) programs.now selection.now.params.now.cel_type
            selection.now.reference.now.parameter_not_found_action
            (filter (is_param (lent_place selection.now.place) selection.now.reference.now) selection.now.params.now.objects)) }
    {
        if selection.takes_one() {
            return self.each(rule, programs, selection);
        }
        match selection.reference.parameter_not_found_action {
            NotFoundAction::Allow => Ok(()),
            NotFoundAction::Deny => self.fail(rule, "no params found"),
        }
    }

    /// Evaluates a policy at the params of a kind to which a binding refers.
    fn referred(
        &mut self,
        rule: &Rule<'_>,
        programs: &Programs,
        params: &KindParams,
        reference: &ParamRef,
    ) -> Result<(), JudgeError>
        ghost types: { List CelType }
        requires ready { CanRun (case_in self.old) (Some params.now) types programs.now }
        requires budget { IsWithin self.old }
        ensures adds { OnOk result (Adds self.old self.new
            (in_place (case_in self.old) (lent_rule rule.now) programs.now params.now reference.now
            (place_of params.now.namespaced reference.now.namespace (case_in self.old).request.namespace))) }
        ensures pattern { IsErrOf result (Fault Pattern) → Looks self.old
            (in_place (case_in self.old) (lent_rule rule.now) programs.now params.now reference.now
            (place_of params.now.namespaced reference.now.namespace (case_in self.old).request.namespace)) }
    {
        let case = self.case;
        let requested = case.request.request.admission().namespace.as_str();
        let given = reference.namespace.as_str();
        match place_of(params.is_namespaced(), given, requested) {
            Some(place) => {
                let selection = Selection {
                    place,
                    reference,
                    params,
                };
                self.selected(rule, programs, &selection)
            }
            None => self.fail(rule, "bad param namespace"),
        }
    }

    /// Evaluates a policy at all its params: null, if it has no kind of params, or the binding refers to none.
    fn params(
        &mut self,
        rule: &Rule<'_>,
        programs: &Programs,
        params: Option<&KindParams>,
        reference: &Option<ParamRef>,
    ) -> Result<(), JudgeError>
        ghost types: { List CelType }
        requires ready { CanRun (case_in self.old) (option_copied params) types programs.now }
        requires budget { IsWithin self.old }
        ensures adds { OnOk result (Adds self.old self.new
            (at_params (case_in self.old) (lent_rule rule.now) programs.now (option_copied params.entry) reference.now)) }
        ensures pattern { IsErrOf result (Fault Pattern) → Looks self.old
            (at_params (case_in self.old) (lent_rule rule.now) programs.now (option_copied params.entry) reference.now) }
    {
        match (params, reference) {
            (Some(params), Some(reference)) => self.referred(rule, programs, params, reference),
            _ => {
                let null = Value::Null;
                self.run(rule, programs, &null)
            }
        }
    }

    /// Evaluates a policy under a binding.
    #[tactic(auto, unfolding(crate::specs::Judging::of_binding))]
    fn binding(&mut self, policy: &BoundPolicy, binding: &Keyed<Binding>) -> Result<(), JudgeError>
        requires case { IsCase self.old.case.now }
        requires ready { IsReadyAt self.old.case.now.set.now (case_in self.old).kind policy.now }
        requires budget { IsWithin self.old }
        ensures adds { OnOk result (Adds self.old self.new (of_binding (case_in self.old) policy.now binding.now)) }
        ensures pattern { IsErrOf result (Fault Pattern) → Looks self.old (of_binding (case_in self.old) policy.now binding.now) }
    {
        let case = self.case;
        let spec = policy.policy.spec.get();
        let bound = binding.value.spec.get();
        let rule = Rule {
            policy: &policy.name,
            binding: &binding.key,
            actions: bound.validation_actions,
            failure_policy: spec.failure_policy,
        };
        match policy.pair(case.kind) {
            Some(Pair::Runs(programs)) => {
                let params = params_of(case.set, &spec.param_kind);
                self.params(&rule, programs, params, &bound.param_ref)
            }
            Some(Pair::Misconfigured(fault)) => {
                let message = misconfigured(self.alloc, fault.name())?;
                self.fail(&rule, message.as_str())
            }
            None => Ok(()),
        }
    }

    /// Evaluates a policy under each of its bindings that match.
    #[tactic(auto, unfolding(crate::specs::Judging::of_policy))]
    fn policy(&mut self, policy: &BoundPolicy) -> Result<(), JudgeError>
        requires case { IsCase self.old.case.now }
        requires ready { IsReadyAt self.old.case.now.set.now (case_in self.old).kind policy.now }
        requires budget { IsWithin self.old }
        ensures adds { OnOk result (Adds self.old self.new (of_policy (case_in self.old) policy.now)) }
        ensures pattern { IsErrOf result (Fault Pattern) → Looks self.old (of_policy (case_in self.old) policy.now) }
    {
        for binding in policy.bindings.as_slice() {
            let rules = &binding.value.spec.get().match_resources;
            if self.case.is_matched(rules) {
                self.binding(policy, binding)?;
            }
        }
        Ok(())
    }

    /// Evaluates each of these policies that match.
    pub fn policies(&mut self, policies: &[Shared<BoundPolicy>]) -> Result<(), JudgeError>
        requires case { IsCase self.old.case.now }
        requires ready { All (IsReadyAt self.old.case.now.set.now (case_in self.old).kind) policies.now }
        requires budget { IsWithin self.old }
        ensures adds { OnOk result (Adds self.old self.new (of_policies (case_in self.old) policies.now)) }
        ensures pattern { IsErrOf result (Fault Pattern) → Looks self.old (of_policies (case_in self.old) policies.now) }
    {
        for policy in policies {
            let bound = policy.get();
            let rules = &bound.policy.spec.get().match_constraints;
            if self.case.is_matched(rules) {
                self.policy(bound)?;
            }
        }
        Ok(())
    }
}
