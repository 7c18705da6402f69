ghost use Rattle.std.specs.Prelude.{◌≡◌, ◌<◌, ◌≤◌, ◌^◌, ◌↔◌, [], length, None, IfSome, slice_get, Some};
ghost use Rattle.flow_model.specs.declared.limits.TheConstants.{MOST_LEAVES};
ghost use Rattle.flow_model.specs.Lists.{◌∈◌, Each, AreDistinct};
ghost use Rattle.flow_goal.specs.Repeats.{HoldsNoneTwice};
ghost use Rattle.flow_laws.specs.WellFormed.{IsWellFormed};
ghost use Rattle.flow_workflow.specs.Rule.{rules_of};
ghost use Rattle.flow_workflow.specs.Numbers.{event_number, IsKnown};

use crate::numbered::Numbered;
use crate::rule::Rule;
use crate::table::FactTable;
use flow_facts::Name;
use flow_goal::Tree;
use flow_model::Note;
use std::alloc::Global;
use std::marker::Model;

/// A workflow whose sub-workflows stand in their places. Events and facts go by their numbers.
#[derive(Drop)]
pub struct Workflow {
    events: Numbered<Name>,
    notes: Vec<Note>,
    facts: FactTable,
    held: Vec<u32>,
    tree: Tree,
    rules: Vec<Rule>,
}

impl Model for Workflow {
    ghost use Rattle.flow_workflow.specs.Definition.{Definition, definition_code};

    ghost Value = { Definition };

    ghost coded = { definition_code };

    ghost use Rattle.flow_workflow.specs.Definition.{definition, IsWorkflow};

    ghost view = { λ w. definition w.events w.notes.items w.facts w.held.items w.tree w.rules.items };

    ghost invariant = { λ w. IsWorkflow (definition w.events w.notes.items w.facts w.held.items w.tree w.rules.items) };
}

impl Workflow {
    ghost use Rattle.flow_workflow.specs.Definition.{definition, IsWorkflow, schema_of};

    /// The workflow of these parts, with no constraints. Events have the numbers of the table.
    pub fn new(
        alloc: Global,
        events: Numbered<Name>,
        notes: Vec<Note>,
        facts: FactTable,
        held: Vec<u32>,
        tree: Tree,
    ) -> Workflow
        requires { IsWorkflow (definition events notes.items facts held.items tree []) }
        ensures { result ≡ definition events notes.items facts held.items tree [] }
    {
        Workflow {
            events,
            notes,
            facts,
            held,
            tree,
            rules: Vec::new(alloc),
        }
    }

    /// The workflow with these constraints in the place of its own.
    pub fn with_rules(self, rules: Vec<Rule>) -> Workflow
        ensures { result ≡ record self { rules = rules_of rules.items } }
    {
        Workflow { rules, ..self }
    }

    /// The names of the events, by their numbers.
    pub fn events(&self) -> &[Name]
        ensures names { result.now ≡ self.now.events }
        ensures distinct { AreDistinct self.now.events }
        ensures few { length self.now.events < 2 ^ 31 }
    {
        self.events.as_slice()
    }

    /// The number of the event of that name.
    pub fn event_number(&self, name: &Name) -> Option<u32>
        ensures none { (result ≡ None) ↔ ¬ (name.now ∈ self.now.events) }
        ensures place { IfSome result (λ number. slice_get self.now.events number ≡ Some name.now) }
        ensures number { IfSome result (λ number. number ≡ event_number self.now.events name.now) }
    {
        self.events.number_of(name)
    }

    /// What is noted of each event, by their numbers.
    pub fn notes(&self) -> &[Note]
        ensures notes { result.now ≡ self.now.notes }
        ensures as_many { length self.now.notes ≡ length self.now.events }
    {
        &self.notes
    }

    /// The facts by their numbers.
    pub fn facts(&self) -> &FactTable
        ensures { result.now ≡ self.now.facts }
    {
        &self.facts
    }

    /// The numbers of the facts that hold at the start.
    pub fn held(&self) -> &[u32]
        ensures held { result.now ≡ self.now.held }
        ensures known { Each (λ f. f < length self.now.facts) self.now.held }
    {
        &self.held
    }

    /// The goal and its labels.
    pub fn tree(&self) -> &Tree
        ensures tree { result.now ≡ self.now.tree }
        ensures known { Each (IsKnown (length self.now.events) (length self.now.facts)) self.now.tree.labels }
        ensures unique { HoldsNoneTwice self.now.tree }
        ensures small { length self.now.tree.labels ≤ MOST_LEAVES }
        ensures well_formed { IsWellFormed (schema_of self.now) }
    {
        // what the type keeps of its leaves
        let _leaves = self.tree.leaves();
        &self.tree
    }

    /// The constraints in order.
    pub fn rules(&self) -> &[Rule]
        ensures { rules_of result.now ≡ self.now.rules }
    {
        &self.rules
    }
}
