ghost use Rattle.std.specs.Prelude.{◌≡◌, ◌<◌, IfOk, length, map, slice_index_or};
ghost use Rattle.flow_model.specs.Lists.{◌∈◌, Each};
ghost use Rattle.flow_form.specs.RuleForm.{rule_shape_of, rule_shapes};
ghost use Rattle.flow_form.specs.Names.{names_in_rule, names_in_rules};
ghost use Rattle.flow_workflow.specs.Rule as rules;
ghost use Rattle.flow_workflow.specs.Numbers as numbers;
ghost use Rattle.flow_expand.specs.Constraints.{constraint_of, constraints_of};

use flow_facts::Name;
use flow_form::RuleForm;
use flow_workflow::{Rule, Workflow, needs, precedes};
use std::alloc::{AllocError, Global};

/// The number of an event that the workflow has.
fn number_of(workflow: &Workflow, name: &Name) -> u32
    requires { name.now ∈ workflow.now.events }
    ensures { result ≡ numbers.event_number workflow.now.events name.now }
{
    match workflow.event_number(name) {
        Some(number) => number,
        None => unreachable!(),
    }
}

/// The numbers of events that the workflow has.
fn numbers_of(alloc: Global, names: &[Name], workflow: &Workflow) -> Result<Vec<u32>, AllocError>
    requires { Each (λ n. n ∈ workflow.now.events) names.now }
    ensures { IfOk result (λ found. found.items ≡ map (numbers.event_number workflow.now.events) names.now) }
{
    let mut found = Vec::new(alloc);
    for name in names {
        found.push(number_of(workflow, name))?;
    }
    Ok(found)
}

/// A constraint on the events of a workflow, with their numbers in place of their names.
#[cycle(constraints)]
pub fn rule_of(alloc: Global, form: &RuleForm, workflow: &Workflow) -> Result<Rule, AllocError>
    requires { Each (λ n. n ∈ workflow.now.events) (names_in_rule (rule_shape_of form.now)) }
    ensures { IfOk result (λ rule. rules.rule_of rule ≡ constraint_of workflow.now.events (rule_shape_of form.now)) }
{
    match form {
        RuleForm::Must(name) => Ok(Rule::Must(number_of(workflow, name))),
        RuleForm::Never(name) => Ok(Rule::Never(number_of(workflow, name))),
        RuleForm::Order(names) => Ok(Rule::Order(numbers_of(alloc, names, workflow)?)),
        RuleForm::Precedes(first, second) => precedes(
            alloc,
            number_of(workflow, first),
            number_of(workflow, second),
        ),
        RuleForm::Needs(one, other) => {
            needs(alloc, number_of(workflow, one), number_of(workflow, other))
        }
        RuleForm::Not(part) => {
            let rule = rule_of(alloc, part, workflow)?;
            Ok(Rule::Not(Box::new(alloc, rule)?))
        }
        RuleForm::And(parts) => Ok(Rule::And(rules_of(alloc, parts, workflow)?)),
        RuleForm::Or(parts) => Ok(Rule::Or(rules_of(alloc, parts, workflow)?)),
    }
}

/// Where the names in all constraints of a list are events, those in each of them are.
fn member_known(forms: &[RuleForm], place: usize, form: &RuleForm, workflow: &Workflow)
    requires known { Each (λ n. n ∈ workflow.now.events) (names_in_rules (rule_shapes (map rule_shape_of forms.now))) }
    requires within { place < length forms.now }
    requires is { form.now ≡ slice_index_or forms.now place form.now }
    ensures { Each (λ n. n ∈ workflow.now.events) (names_in_rule (rule_shape_of form.now)) }
{}

/// Each of the constraints.
#[cycle(constraints)]
pub(crate) fn rules_of(
    alloc: Global,
    forms: &[RuleForm],
    workflow: &Workflow,
) -> Result<Vec<Rule>, AllocError>
    requires { Each (λ n. n ∈ workflow.now.events) (names_in_rules (rule_shapes (map rule_shape_of forms.now))) }
    ensures { IfOk result (λ made. rules.rules_of made.items ≡ constraints_of workflow.now.events (rule_shapes (map rule_shape_of forms.now))) }
{
    let mut made = Vec::new(alloc);
    for (place, form) in forms.iter().enumerate() {
        // It says that the names in this one are events.
        member_known(forms, place, form, workflow);
        made.push(rule_of(alloc, form, workflow)?)?;
    }
    Ok(made)
}
