ghost use Rattle.std.specs.Prelude.{◌≡◌};
ghost use Rattle.flow_goal.specs.Goal.{process_of};
ghost use Rattle.flow_goal.specs.Measure.{measure_of};
ghost use Rattle.flow_workflow.specs.Rule.{rules_of};
ghost use Rattle.flow_excise.specs.Limits.{HasManyChoices};
ghost use Rattle.flow_excise.specs.Options.{is_named_in, staying_count};

use crate::refusal::CompileRefusal;
use flow_goal::{Goal, Measure, Tree};
use flow_model::MOST_RESOLUTIONS;
use flow_workflow::{Rule, names_event};

/// Whether a rule names the event of the leaf.
fn is_named(tree: &Tree, rules: &[Rule], leaf: u32) -> bool
    ensures { result ≡ is_named_in tree.now (rules_of rules.now) leaf }
{
    match tree.event(leaf) {
        Some(event) => names_event(rules, event),
        None => false,
    }
}

/// What is found of the choices of a goal of the tree.
fn measured(goal: &Goal, tree: &Tree, rules: &[Rule]) -> Measure
    ensures { result ≡ measure_of (is_named_in tree.now (rules_of rules.now)) (process_of goal.now) }
{
    match goal {
        Goal::Nop => Measure::of_nop(),
        Goal::Leaf(leaf) => Measure::of_leaf(is_named(tree, rules, *leaf)),
        Goal::Serial(left, right) | Goal::Beside(left, right) => {
            measured(left, tree, rules).both(measured(right, tree, rules))
        }
        Goal::Either(left, right) => {
            measured(left, tree, rules).choice(measured(right, tree, rules))
        }
        Goal::Iso(part) => measured(part, tree, rules).isolated(),
    }
}

/// Why nothing is compiled where memory was wanting before the resolutions were counted. They are counted with no memory,
/// so that too many of them are told all the same. It looks through all rules for each leaf.
pub(crate) fn refused_unseen(tree: &Tree, rules: &[Rule]) -> CompileRefusal
    ensures { HasManyChoices (staying_count tree.now (rules_of rules.now)) result }
{
    let count = measured(tree.goal(), tree, rules).resolutions();
    if count > MOST_RESOLUTIONS {
        CompileRefusal::TooManyChoices { count }
    } else {
        CompileRefusal::NoMemory
    }
}
