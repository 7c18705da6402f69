ghost use Rattle.std.specs.Prelude.{◌↔◌, IsTrue, map};
ghost use Rattle.flow_model.specs.Constraint.{all_of};
ghost use Rattle.flow_model.specs.Folding.{named_events};
ghost use Rattle.flow_model.specs.Lists.{◌∈◌, joined};
ghost use Rattle.flow_workflow.specs.Rule.{rule_of, rules_of};

use crate::rule::Rule;

/// Whether one of the rules names the event.
#[cycle(naming)]
fn some_names(rules: &[Rule], event: u32) -> bool
    ensures { IsTrue result ↔ event ∈ joined (map named_events (rules_of rules.now)) }
{
    for rule in rules {
        if rule_names(rule, event) {
            return true;
        }
    }
    false
}

#[cycle(naming)]
fn rule_names(rule: &Rule, event: u32) -> bool
    ensures { IsTrue result ↔ event ∈ named_events (rule_of rule.now) }
{
    match rule {
        Rule::Must(other) | Rule::Never(other) => *other == event,
        Rule::Order(events) => events.contains(&event),
        Rule::Not(part) => rule_names(part, event),
        Rule::And(parts) | Rule::Or(parts) => some_names(parts, event),
    }
}

/// Whether one of the rules names the event. It walks them all for each event that is asked for, and takes no memory:
/// `events_of` is the faster way to ask for many events.
pub fn names_event(rules: &[Rule], event: u32) -> bool
    ensures { IsTrue result ↔ event ∈ named_events (all_of (rules_of rules.now)) }
{
    some_names(rules, event)
}
