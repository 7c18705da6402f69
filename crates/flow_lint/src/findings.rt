ghost use Rattle.std.specs.Prelude.{◌≡◌, ◌<◌, ◌↔◌, ◌∷◌, [], IfOk, OnOk};
ghost use Rattle.flow_model.specs.Lists.{◌∈◌};
ghost use Rattle.flow_form.specs.Script.{Said, said};
ghost use Rattle.flow_form.specs.Names.{goals_of};
ghost use Rattle.flow_workflow.specs.Definition.{schema_of};
ghost use Rattle.flow_plan.specs.Compilation.{IsCompiled};
ghost use Rattle.flow_lint.specs.declared.kind.Kind.TheVariants as kind;
ghost use Rattle.flow_lint.specs.declared.finding.Finding.{Finding};
ghost use Rattle.flow_lint.specs.Finding.{Adds, AreFindings, IsAdded, IsFinding};
ghost use Rattle.flow_lint.specs.Goals.{shapes_of};

use crate::constraints::{IdleRules, standings_of};
use crate::events::UnusedEvents;
use crate::facts::{NeverAdded, NeverTested};
use crate::finding::{Finding, push_each};
use crate::flows::unused_flows;
use crate::goals::goals_of;
use crate::isos::lone_isos;
use crate::kind::Kind;
use crate::labels::labels_of;
use crate::leaves::DeadLeaves;
use crate::marks::Marks;
use crate::nops::idle_nops;
use crate::question::{Question, those};
use flow_form::{Form, Script};
use flow_model::Label;
use flow_plan::Compiled;
use flow_workflow::Workflow;
use std::alloc::{AllocError, Global};

/// Adds a finding for each thing of which it is so.
fn add<Q: Question>(
    alloc: Global,
    found: &mut Vec<Finding>,
    kind: Kind,
    question: &Q,
) -> Result<(), AllocError>
    ensures { OnOk result (Adds kind (Q.size question.now) (Q.is_so question.now) found.old.items found.new.items) }
{
    let numbers = those(alloc, question)?;
    push_each(found, kind, &numbers)
}

/// Adds what is found of facts.
fn add_of_facts(
    alloc: Global,
    found: &mut Vec<Finding>,
    workflow: &Workflow,
    labels: &[Label],
) -> Result<(), AllocError>
    requires { labels.now ≡ workflow.now.tree.labels }
    ensures { (s : Said) → OnOk result (IsAdded s workflow.now (kind.NeverAdded ∷ kind.NeverTested ∷ []) found.old.items found.new.items) }
{
    let held = workflow.held();
    let facts = workflow.facts().count();
    let never_added = NeverAdded {
        labels,
        held,
        facts,
    };
    add(alloc, found, Kind::NeverAdded, &never_added)?;
    let never_tested = NeverTested {
        labels,
        held,
        facts,
    };
    add(alloc, found, Kind::NeverTested, &never_tested)
}

/// Adds what is found of events, sub-workflows and leaves.
fn add_of_names(
    alloc: Global,
    found: &mut Vec<Finding>,
    script: &Script,
    workflow: &Workflow,
    compiled: &Compiled,
    labels: &[Label],
    goals: &[&Form],
) -> Result<(), AllocError>
    requires labels { labels.now ≡ workflow.now.tree.labels }
    requires goals { shapes_of goals.now ≡ goals_of (said script.now) }
    requires compiled { IsCompiled (schema_of workflow.now) compiled.now }
    ensures { OnOk result (IsAdded (said script.now) workflow.now (kind.UnusedEvent ∷ kind.UnusedFlow ∷ kind.DeadLeaf ∷ []) found.old.items found.new.items) }
{
    let events = workflow.events().len() as u32;
    add(
        alloc,
        found,
        Kind::UnusedEvent,
        &UnusedEvents { labels, events },
    )?;
    let flows = unused_flows(alloc, &script.decls, goals)?;
    add(alloc, found, Kind::UnusedFlow, &Marks { marks: &flows })?;
    let plans = compiled.plans();
    let leaves = workflow.tree().leaves();
    add(alloc, found, Kind::DeadLeaf, &DeadLeaves { plans, leaves })
}

/// Adds what is found of constraints.
fn add_of_rules(
    alloc: Global,
    found: &mut Vec<Finding>,
    workflow: &Workflow,
    labels: &[Label],
) -> Result<(), AllocError>
    requires { labels.now ≡ workflow.now.tree.labels }
    ensures { (s : Said) → OnOk result (IsAdded s workflow.now (kind.Redundant ∷ kind.Unsettled ∷ kind.Idle ∷ []) found.old.items found.new.items) }
{
    let told = standings_of(alloc, workflow)?;
    let follows = Marks {
        marks: &told.follows,
    };
    add(alloc, found, Kind::Redundant, &follows)?;
    let unknown = Marks {
        marks: &told.unknown,
    };
    add(alloc, found, Kind::Unsettled, &unknown)?;
    let rules = workflow.rules();
    add(alloc, found, Kind::Idle, &IdleRules { labels, rules })
}

/// Adds what is found of goals as they are written.
fn add_of_goals(
    alloc: Global,
    found: &mut Vec<Finding>,
    workflow: &Workflow,
    goals: &[&Form],
) -> Result<(), AllocError>
    ensures { (s : Said) → shapes_of goals.now ≡ goals_of s →
        OnOk result (IsAdded s workflow.now (kind.IdleNop ∷ kind.LoneIso ∷ []) found.old.items found.new.items) }
{
    let nops = idle_nops(alloc, goals)?;
    add(alloc, found, Kind::IdleNop, &Marks { marks: &nops })?;
    let isos = lone_isos(alloc, workflow, goals)?;
    add(alloc, found, Kind::LoneIso, &Marks { marks: &isos })
}

/// What to look at in a workflow that is not refused, kind by kind in the order of `Kind`, and of a kind by rising numbers. It compiles
/// the workflow once more for each constraint.
pub fn lint(
    alloc: Global,
    script: &Script,
    workflow: &Workflow,
    compiled: &Compiled,
) -> Result<Vec<Finding>, AllocError>
    requires { IsCompiled (schema_of workflow.now) compiled.now }
    ensures findings { IfOk result (λ found. AreFindings (said script.now) workflow.now found.items) }
    ensures exact { IfOk result (λ found. (one : Finding) → (one ∈ found.items) ↔ IsFinding (said script.now) workflow.now one) }
{
    let labels = labels_of(alloc, workflow.tree())?;
    let goals = goals_of(alloc, script)?;
    let mut found = Vec::new(alloc);
    add_of_facts(alloc, &mut found, workflow, &labels)?;
    add_of_names(
        alloc, &mut found, script, workflow, compiled, &labels, &goals,
    )?;
    add_of_rules(alloc, &mut found, workflow, &labels)?;
    add_of_goals(alloc, &mut found, workflow, &goals)?;
    Ok(found)
}
