ghost use Rattle.std.specs.Prelude.{◌≡◌, ◌<◌, ◌↔◌, ℕ, IsTrue, IfOk, length};
ghost use Rattle.flow_model.specs.Schema.{Schema};
ghost use Rattle.flow_workflow.specs.Definition.{schema_of};
ghost use Rattle.flow_workflow.specs.Rule.{rule_of, rules_of};
ghost use Rattle.flow_verify.specs.Verification.{against, without, IsRefused, TellsOfConstraint};
ghost use Rattle.flow_lint.specs.Constraints.{AreStandings, CanBeSeen, constraint_at, has_unused, IsIdleOf, IsRedundant, NamesUnused, TellsStanding};

use crate::events::is_used;
use crate::question::Question;
use flow_model::Label;
use flow_verify::{Redundancy, VerifyRefusal, redundant};
use flow_workflow::{Rule, Workflow, events_of};
use std::alloc::{AllocError, Global};
use std::slice;

/// How a constraint stands to the others.
#[derive(Clone, Copy)]
pub(crate) enum Standing {
    /// It follows from them.
    Follows,
    /// Some trace meets the others and not it.
    Needed,
    /// To see it would pass the limits.
    Unknown,
}

impl Standing {
    /// How a constraint stands of which that is told.
    fn of(told: &Redundancy) -> Standing
        ensures { (w : Schema) (number : ℕ) → CanBeSeen w number → TellsOfConstraint w number told.now → TellsStanding w number result }
    {
        match told {
            Redundancy::Redundant => Standing::Follows,
            Redundancy::Needed(_) => Standing::Needed,
        }
    }

    /// How a constraint stands of which nothing is told, for that reason.
    fn of_refused(refusal: VerifyRefusal) -> Result<Standing, AllocError>
        ensures { (w : Schema) (number : ℕ) → IsRefused (against (without w number) (constraint_at w number)) refusal →
            IfOk result (TellsStanding w number) }
    {
        match refusal {
            VerifyRefusal::TooManyChoices { .. } => Ok(Standing::Unknown),
            VerifyRefusal::TooManyWays { .. } => Ok(Standing::Unknown),
            VerifyRefusal::TooBulky { .. } => Ok(Standing::Unknown),
            // there is a constraint of that number
            VerifyRefusal::NoRule { .. } => Err(AllocError),
            VerifyRefusal::NoMemory => Err(AllocError),
        }
    }

    /// Whether it follows from the others.
    fn is_redundant(self) -> bool
        ensures { (w : Schema) (number : ℕ) → TellsStanding w number self → IsTrue result ↔ IsRedundant w number }
    {
        match self {
            Standing::Follows => true,
            Standing::Needed => false,
            Standing::Unknown => false,
        }
    }

    /// Whether it is not known.
    fn is_unknown(self) -> bool
        ensures { (w : Schema) (number : ℕ) → TellsStanding w number self → IsTrue result ↔ ¬ (CanBeSeen w number) }
    {
        match self {
            Standing::Follows => false,
            Standing::Needed => false,
            Standing::Unknown => true,
        }
    }
}

/// How the constraint of that number stands to the others. It takes a compiling.
fn standing_of(alloc: Global, workflow: &Workflow, number: u32) -> Result<Standing, AllocError>
    requires { number < length workflow.now.rules }
    ensures { IfOk result (TellsStanding (schema_of workflow.now) number) }
{
    match redundant(alloc, workflow, number) {
        Ok(told) => {
            let standing = Standing::of(&told);
            drop(told);
            Ok(standing)
        }
        Err(refusal) => Standing::of_refused(refusal),
    }
}

/// How each constraint stands to the others.
#[derive(Drop)]
pub(crate) struct Standings {
    /// Of each constraint, whether it follows from the others.
    pub(crate) follows: Vec<bool>,
    /// Of each constraint, whether to see that would pass the limits.
    pub(crate) unknown: Vec<bool>,
}

/// How many constraints there are. More than have numbers are refused as want of memory, which a text cannot hold either.
fn rules_in(workflow: &Workflow) -> Result<u32, AllocError>
    ensures { IfOk result (λ count. count ≡ length workflow.now.rules) }
{
    match u32::try_from(workflow.rules().len()) {
        Ok(count) => Ok(count),
        Err(_) => Err(AllocError),
    }
}

/// How each constraint of the workflow stands to the others. It takes a compiling for each of them.
pub(crate) fn standings_of(alloc: Global, workflow: &Workflow) -> Result<Standings, AllocError>
    ensures { IfOk result (AreStandings (schema_of workflow.now)) }
{
    let mut follows = Vec::new(alloc);
    let mut unknown = Vec::new(alloc);
    for number in 0..rules_in(workflow)? {
        let standing = standing_of(alloc, workflow, number)?;
        follows.push(standing.is_redundant())?;
        unknown.push(standing.is_unknown())?;
    }
    Ok(Standings { follows, unknown })
}

/// Whether one of the events is that of no leaf.
fn has_unused(labels: &[Label], events: &[u32]) -> bool
    ensures { result ≡ has_unused labels.now events.now }
{
    events.iter().any(|event| !is_used(labels, *event))
}

/// Whether the constraint names an event that no leaf has.
fn names_unused(alloc: Global, labels: &[Label], rule: &Rule) -> Result<bool, AllocError>
    ensures { IfOk result (λ names. IsTrue names ↔ NamesUnused labels.now (rule_of rule.now)) }
{
    let events = events_of(alloc, slice::from_ref(rule))?;
    Ok(has_unused(labels, &events))
}

/// Which constraints name an event that no leaf has.
#[derive(Clone, Copy)]
pub(crate) struct IdleRules<'a> {
    /// Of each leaf.
    pub(crate) labels: &'a [Label],
    pub(crate) rules: &'a [Rule],
}

impl Question for IdleRules<'_> {
    ghost size = { λ question. length (rules_of question.rules.now) };

    ghost is_so = { λ question rule. IsIdleOf question.labels.now (rules_of question.rules.now) rule };

    fn count(&self) -> usize {
        self.rules.len()
    }

    fn ask(&self, alloc: Global, number: u32) -> Result<bool, AllocError> {
        names_unused(alloc, self.labels, &self.rules[number as usize])
    }
}
