ghost use Rattle.std.specs.Prelude.{◌≤◌, IfOk, IfErr};
ghost use Rattle.flow_model.specs.declared.limits.TheConstants.{MOST_RESOLUTIONS};
ghost use Rattle.flow_model.specs.Constraint.{all_of};
ghost use Rattle.flow_model.specs.Folding.{named_events};
ghost use Rattle.flow_goal.specs.Folds.{AreFoldsOf};
ghost use Rattle.flow_workflow.specs.Rule.{rules_of};
ghost use Rattle.flow_excise.specs.Options.{ArePrepared, staying_count};
ghost use Rattle.flow_excise.specs.Limits.{HasManyChoices};

use crate::limits::few_resolutions;
use crate::refusal::CompileRefusal;
use crate::unseen::refused_unseen;
use flow_goal::{Choices, Folds, Tree};
use flow_workflow::{Rule, events_of};
use std::alloc::{AllocError, Global};

/// The choices of a tree, looked through: which of them stay, the resolutions of the others, and how many those are.
#[derive(Drop)]
pub(crate) struct FoldedChoices {
    pub(crate) folds: Folds,
    pub(crate) prepared: Choices,
    pub(crate) count: u64,
}

/// Which choices of a tree stay, by the events that rules name.
fn folds_by(alloc: Global, tree: &Tree, rules: &[Rule]) -> Result<Folds, AllocError>
    ensures { IfOk result (AreFoldsOf tree.now (named_events (all_of (rules_of rules.now)))) }
{
    let events = events_of(alloc, rules)?;
    Folds::new(alloc, tree, &events)
}

/// The same, and where memory is wanting, whether there are too many resolutions.
fn folds_or_refusal(alloc: Global, tree: &Tree, rules: &[Rule]) -> Result<Folds, CompileRefusal>
    ensures folds { IfOk result (AreFoldsOf tree.now (named_events (all_of (rules_of rules.now)))) }
    ensures refused { IfErr result (HasManyChoices (staying_count tree.now (rules_of rules.now))) }
{
    match folds_by(alloc, tree, rules) {
        Ok(folds) => Ok(folds),
        Err(_) => Err(refused_unseen(tree, rules)),
    }
}

impl FoldedChoices {
    /// Those of a tree, where these rules name events, unless there are too many resolutions.
    pub(crate) fn new(
        alloc: Global,
        tree: &Tree,
        rules: &[Rule],
    ) -> Result<FoldedChoices, CompileRefusal>
        ensures prepared { IfOk result (ArePrepared tree.now) }
        ensures folds { IfOk result (λ choices. AreFoldsOf tree.now (named_events (all_of (rules_of rules.now))) choices.folds) }
        ensures few { IfOk result (λ _. staying_count tree.now (rules_of rules.now) ≤ MOST_RESOLUTIONS) }
        ensures refused { IfErr result (HasManyChoices (staying_count tree.now (rules_of rules.now))) }
    {
        let folds = folds_or_refusal(alloc, tree, rules)?;
        let count = few_resolutions(tree, &folds)?;
        let prepared = Choices::of(alloc, tree, &folds)?;
        Ok(FoldedChoices {
            folds,
            prepared,
            count,
        })
    }
}
