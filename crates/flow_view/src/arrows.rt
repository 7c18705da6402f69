ghost use Rattle.std.specs.Prelude.{◌≡◌, ◌+◌, ◌++◌, ◌∷◌, [], ℕ, List, IfOk, OnOk, length, map, take, nat_lt};
ghost use Rattle.flow_model.specs.Facts.{event_at, is_event};
ghost use Rattle.flow_model.specs.Lists.{each_with_each};
ghost use Rattle.flow_workflow.specs.Rule.{rule_of, rules_of};
ghost use Rattle.std.specs.List.{flat_map};
ghost use Rattle.flow_view.specs.Arrows as model;
ghost use Rattle.flow_view.specs.Arrows.{arrow, arrows_between, followers, leaves_of, ordered};
ghost use Rattle.flow_view.specs.Told.{Adds, AreTold};

use crate::arrow::Arrow;
use crate::size::MOST_ARROWS;
use flow_goal::Tree;
use flow_workflow::{Rule, Workflow};
use std::alloc::{AllocError, Global};

/// The first of the arrows.
#[derive(Drop)]
pub(crate) struct Arrows {
    pub(crate) list: Vec<Arrow>,
    /// Whether there are more.
    pub(crate) left_out: bool,
}

impl Arrows {
    fn put(&mut self, arrow: Arrow) -> Result<(), AllocError>
        ensures { OnOk result (Adds (arrow ∷ []) self.old self.new) }
    {
        if self.list.len() < MOST_ARROWS {
            self.list.push(arrow)?;
        } else {
            self.left_out = true;
        }
        Ok(())
    }

    /// From a leaf to each of the others.
    fn put_each(&mut self, rule: usize, from: u32, to: &[u32]) -> Result<(), AllocError>
        ensures { OnOk result (Adds (each_with_each (arrow rule) (from ∷ []) to.now) self.old self.new) }
    {
        for leaf in to {
            self.put(Arrow {
                rule,
                from,
                to: *leaf,
            })?;
        }
        Ok(())
    }

    /// From each leaf of the one event to each of the other. It stops where no more are kept.
    fn put_between(&mut self, rule: usize, from: &[u32], to: &[u32]) -> Result<(), AllocError>
        ensures { OnOk result (Adds (each_with_each (arrow rule) from.now to.now) self.old self.new) }
    {
        for leaf in from {
            if self.left_out {
                return Ok(());
            }
            self.put_each(rule, *leaf, to)?;
        }
        Ok(())
    }

    /// From each event of an order to the next.
    fn put_order(
        &mut self,
        alloc: Global,
        tree: &Tree,
        rule: usize,
        events: &[u32],
    ) -> Result<(), AllocError>
        ensures { OnOk result (Adds (flat_map (arrows_between tree.now.labels rule) (followers events.now)) self.old self.new) }
    {
        for place in 1..events.len() {
            let from = leaves_of(alloc, tree, events[place - 1])?;
            let to = leaves_of(alloc, tree, events[place])?;
            self.put_between(rule, &from, &to)?;
        }
        Ok(())
    }

    /// Those of each part of a constraint.
    #[cycle(telling)]
    fn put_each_rule(
        &mut self,
        alloc: Global,
        tree: &Tree,
        number: usize,
        rules: &[Rule],
    ) -> Result<(), AllocError>
        ensures { OnOk result (Adds (flat_map (arrows_between tree.now.labels number) (flat_map ordered (rules_of rules.now))) self.old self.new) }
    {
        for rule in rules {
            self.put_rule(alloc, tree, number, rule)?;
        }
        Ok(())
    }

    /// Those of a constraint of that number.
    #[cycle(telling)]
    fn put_rule(
        &mut self,
        alloc: Global,
        tree: &Tree,
        number: usize,
        rule: &Rule,
    ) -> Result<(), AllocError>
        ensures { OnOk result (Adds (flat_map (arrows_between tree.now.labels number) (ordered (rule_of rule.now))) self.old self.new) }
    {
        match rule {
            Rule::Must(_) | Rule::Never(_) | Rule::Not(_) => Ok(()),
            Rule::Order(events) => self.put_order(alloc, tree, number, events),
            Rule::And(parts) | Rule::Or(parts) => self.put_each_rule(alloc, tree, number, parts),
        }
    }
}

/// Whether a leaf has that event.
fn has_event(tree: &Tree, leaf: u32, event: u32) -> bool
    ensures { result ≡ is_event event (event_at tree.now.labels leaf) }
{
    match tree.event(leaf) {
        Some(other) => other == event,
        None => false,
    }
}

/// The leaves of an event, in order.
fn leaves_of(alloc: Global, tree: &Tree, event: u32) -> Result<Vec<u32>, AllocError>
    ensures { IfOk result (λ leaves. leaves.items ≡ leaves_of tree.now.labels event) }
{
    let mut leaves = Vec::new(alloc);
    for leaf in 0..tree.leaves() {
        if has_event(tree, leaf, event) {
            leaves.push(leaf)?;
        }
    }
    Ok(leaves)
}

/// The arrows of a workflow.
pub(crate) fn arrows_of(alloc: Global, workflow: &Workflow) -> Result<Arrows, AllocError>
    ensures { IfOk result (λ arrows. AreTold arrows (model.arrows_of workflow.now)) }
{
    let tree = workflow.tree();
    let mut arrows = Arrows {
        list: Vec::new(alloc),
        left_out: false,
    };
    let rules = workflow.rules();
    for (number, rule) in rules.iter().enumerate() {
        arrows.put_rule(alloc, tree, number, rule)?;
    }
    Ok(arrows)
}
