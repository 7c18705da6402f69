ghost use Rattle.std.specs.Prelude.{◌≡◌, ◌<◌, ◌≤◌, ℕ, List, IfOk, IfSome, MatchResult, map};
ghost use Rattle.flow_model.specs.Folding.{folded_count};
ghost use Rattle.flow_goal.specs.Folds.{AreFoldsOf, named_by};
ghost use Rattle.flow_rules.specs.Conjunction.{normal_in};
ghost use Rattle.flow_excise.specs.Block.{IsSomeBlock};
ghost use Rattle.flow_excise.specs.Options.{ArePrepared, all_options_by, folded, has_ways, resolutions_in};
ghost use Rattle.flow_goal.specs.Capped.{capped};
ghost use Rattle.flow_excise.specs.declared.refusal.CompileRefusal.TheVariants.{TooManyChoices};
ghost use Rattle.flow_excise.specs.Limits.{AreFew, IsTooMany};

use crate::folded_choices::FoldedChoices;
use crate::refusal::CompileRefusal;
use crate::tally::{WholeTally, whole_tally};
use flow_goal::{Folds, Tree, resolutions};
use flow_model::{GREATEST_BULK, MOST_OPTIONS, MOST_RESOLUTIONS};
use flow_rules::Conjunction;
use std::alloc::Global;

/// How many resolutions the tree has, if they are not too many.
pub(crate) fn few_resolutions(tree: &Tree, folds: &Folds) -> Result<u64, CompileRefusal>
    requires { (events : List ℕ) × AreFoldsOf tree.now events folds.now }
    ensures { (events : List ℕ) → AreFoldsOf tree.now events folds.now → MatchResult result
        (λ count. (folded_count (named_by tree.now.labels events) tree.now.process ≤ MOST_RESOLUTIONS)
        × (count ≡ folded_count (named_by tree.now.labels events) tree.now.process))
        (λ refusal. (MOST_RESOLUTIONS < folded_count (named_by tree.now.labels events) tree.now.process)
        × (refusal ≡ TooManyChoices (capped (folded_count (named_by tree.now.labels events) tree.now.process)))) }
{
    let count = resolutions(tree, folds);
    if count > MOST_RESOLUTIONS {
        Err(CompileRefusal::TooManyChoices { count })
    } else {
        Ok(count)
    }
}

/// What is counted of all resolutions, if the options are within the limits.
pub(crate) fn few_options(
    alloc: Global,
    tree: &Tree,
    choices: &FoldedChoices,
    rules: &Conjunction,
) -> Result<WholeTally, CompileRefusal>
    requires choices { ArePrepared tree.now choices.now }
    ensures options { MatchResult result
        (λ counted. AreFew (all_options_by (folded tree.now choices.now) (normal_in rules.now)) counted.tally)
        (IsTooMany (all_options_by (folded tree.now choices.now) (normal_in rules.now))) }
    ensures met { IfOk result (λ counted. counted.met.items ≡ map (has_ways (folded tree.now choices.now) (normal_in rules.now)) (resolutions_in (folded tree.now choices.now))) }
    ensures last { IfOk result (λ counted. IfSome counted.last (IsSomeBlock (folded tree.now choices.now) (normal_in rules.now))) }
{
    let counted = whole_tally(alloc, tree, choices, rules)?;
    if counted.tally.options > MOST_OPTIONS {
        let count = counted.tally.options;
        return Err(CompileRefusal::TooManyWays { count });
    }
    if counted.tally.bulk > GREATEST_BULK {
        let count = counted.tally.bulk;
        return Err(CompileRefusal::TooBulky { count });
    }
    Ok(counted)
}
