ghost use Rattle.std.specs.Prelude.{◌≡◌, ◌∷◌, [], ◌↔◌, ℕ, IfOk, OnOk, map};
ghost use Rattle.flow_model.specs.Constraint.{all_of};
ghost use Rattle.flow_model.specs.Folding.{named_events};
ghost use Rattle.flow_model.specs.Lists.{◌∈◌, AreDistinct, joined};
ghost use Rattle.flow_workflow.specs.NamedEvents.{AreNamed, Notes};
ghost use Rattle.flow_workflow.specs.Rule.{rule_of, rules_of};

use crate::rule::Rule;
use flow_goal::EventSet;
use std::alloc::{AllocError, Global};

/// The events that were met, each once, in the order in which they came first.
#[derive(Drop)]
struct NamedEvents {
    set: EventSet,
    events: Vec<u32>,
}

impl NamedEvents {
    fn new(alloc: Global) -> NamedEvents
        ensures named { AreNamed result }
        ensures none { result.events.items ≡ [] }
    {
        NamedEvents {
            set: EventSet::new(alloc),
            events: Vec::new(alloc),
        }
    }

    fn note(&mut self, event: u32) -> Result<(), AllocError>
        ensures { OnOk result (Notes (event ∷ []) self.old self.new) }
    {
        if self.set.has(event) {
            return Ok(());
        }
        self.events.push(event)?;
        self.set.add(event)
    }

    fn note_all(&mut self, events: &[u32]) -> Result<(), AllocError>
        ensures { OnOk result (Notes events.now self.old self.new) }
    {
        for event in events {
            self.note(*event)?;
        }
        Ok(())
    }
}

/// Notes the events of each rule.
#[cycle(noting)]
fn note_each(rules: &[Rule], named: &mut NamedEvents) -> Result<(), AllocError>
    ensures { OnOk result (Notes (joined (map named_events (rules_of rules.now))) named.old named.new) }
{
    for rule in rules {
        note_rule(rule, named)?;
    }
    Ok(())
}

#[cycle(noting)]
fn note_rule(rule: &Rule, named: &mut NamedEvents) -> Result<(), AllocError>
    ensures { OnOk result (Notes (named_events (rule_of rule.now)) named.old named.new) }
{
    match rule {
        Rule::Must(event) | Rule::Never(event) => named.note(*event),
        Rule::Order(events) => named.note_all(events),
        Rule::Not(part) => note_rule(part, named),
        Rule::And(parts) | Rule::Or(parts) => note_each(parts, named),
    }
}

/// The events that the rules name, each once. It walks the rules once, and takes memory in the measure of the greatest of
/// the events.
pub fn events_of(alloc: Global, rules: &[Rule]) -> Result<Vec<u32>, AllocError>
    ensures named { IfOk result (λ events. (e : ℕ) → (e ∈ events.items) ↔ (e ∈ named_events (all_of (rules_of rules.now)))) }
    ensures distinct { IfOk result (λ events. AreDistinct events.items) }
{
    let mut named = NamedEvents::new(alloc);
    note_each(rules, &mut named)?;
    Ok(named.events)
}
