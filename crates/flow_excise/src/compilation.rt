ghost use Rattle.std.specs.Prelude.{◌≡◌, ◌≢◌, ◌<◌, ◌≤◌, [], List, IfOk, IfErr, length};
ghost use Rattle.flow_goal.specs.Repeats.{HoldsNoneTwice};
ghost use Rattle.flow_model.specs.declared.limits.TheConstants.{MOST_LEAVES, MOST_RESOLUTIONS};
ghost use Rattle.flow_model.specs.Constraint.{Constraint, all_of};
ghost use Rattle.flow_rules.specs.Conjunction.{HasWaysOf, normal_in};
ghost use Rattle.flow_workflow.specs.Rule.{rules_of};
ghost use Rattle.flow_goal.specs.Capped.{capped};
ghost use Rattle.flow_excise.specs.declared.refusal.CompileRefusal.TheVariants.{Inconsistent, TooManyChoices};
ghost use Rattle.flow_excise.specs.Options.{ArePrepared, schema_with, staying_count};
ghost use Rattle.flow_excise.specs.Compilation.{AreMadeOf, IsRefused};
ghost use Rattle.flow_plan.specs.Compilation.{AreShared, IsCompiled};

use crate::folded_choices::FoldedChoices;
use crate::limits::few_options;
use crate::refusal::CompileRefusal;
use crate::sieve::Sieve;
use crate::sifted::sift_all;
use crate::tally::Tally;
use flow_goal::Tree;
use flow_plan::{Compiled, Counts, FoldRow};
use flow_rules::Conjunction;
use flow_workflow::Rule;
use std::alloc::Global;

/// The plans that were found, if there is one, with the rows of the choices that stay.
fn compiled_of(
    sieve: Sieve,
    resolutions: u64,
    tally: Tally,
    rows: Vec<FoldRow>,
) -> Result<Compiled, CompileRefusal>
    requires { AreShared rows.items sieve.kept.items }
    ensures ok { IfOk result (λ compiled. (sieve.kept.items ≢ []) × (compiled.plans ≡ sieve.kept.items) ×
        (compiled.counts ≡ record { resolutions = resolutions; options = tally.options; bulk = tally.bulk; live = length sieve.kept.items })) }
    ensures none { IfErr result (λ refusal. (sieve.kept.items ≡ []) × (refusal ≡ Inconsistent sieve.dropped)) }
{
    if sieve.kept.is_empty() {
        let dropped = sieve.dropped;
        return Err(CompileRefusal::Inconsistent { dropped });
    }
    let counts = Counts {
        resolutions,
        options: tally.options,
        bulk: tally.bulk,
        live: sieve.kept.len() as u64,
    };
    Ok(Compiled::new(sieve.kept, counts, rows))
}

/// Compiles a tree whose choices are looked through. Nothing is formed before the options are counted and within the
/// limits.
fn compile_by(
    alloc: Global,
    tree: &Tree,
    choices: &FoldedChoices,
    rules: &Conjunction,
) -> Result<Compiled, CompileRefusal>
    requires unique { HoldsNoneTwice tree.now }
    requires small { length tree.now.labels ≤ MOST_LEAVES }
    requires choices { ArePrepared tree.now choices.now }
    requires made { (these : List Constraint) × AreMadeOf tree.now choices.now rules.now these }
    ensures refused { (these : List Constraint) → AreMadeOf tree.now choices.now rules.now these → IfErr result (IsRefused (schema_with tree.now these)) }
    ensures ok { (these : List Constraint) → AreMadeOf tree.now choices.now rules.now these → IfOk result (IsCompiled (schema_with tree.now these)) }
{
    // what the type keeps of its leaves
    let _leaves = tree.leaves();
    let counted = match few_options(alloc, tree, choices, rules) {
        Ok(counted) => counted,
        Err(refusal) => return Err(refusal),
    };
    let made = counted.last;
    let sieve = sift_all(alloc, tree, choices, rules, &counted.met, made)?;
    let rows = FoldRow::of_folds(alloc, choices.folds.spans())?;
    compiled_of(sieve, choices.count, counted.tally, rows)
}

/// Compiles a tree and rules into the plans of all options that have an execution. The choices stay in the plans of
/// which no rule speaks. Nothing is formed before the options are counted and within the limits.
pub fn compile(alloc: Global, tree: &Tree, rules: &[Rule]) -> Result<Compiled, CompileRefusal>
    requires unique { HoldsNoneTwice tree.now }
    requires small { length tree.now.labels ≤ MOST_LEAVES }
    // whether memory is there or not
    ensures choices { MOST_RESOLUTIONS < staying_count tree.now (rules_of rules.now) →
        result ≡ Err (TooManyChoices (capped (staying_count tree.now (rules_of rules.now)))) }
    ensures refused { IfErr result (IsRefused (schema_with tree.now (rules_of rules.now))) }
    ensures ok { IfOk result (IsCompiled (schema_with tree.now (rules_of rules.now))) }
{
    let choices = FoldedChoices::new(alloc, tree, rules)?;
    let rules = Conjunction::new(alloc, rules)?;
    let compiled = compile_by(alloc, tree, &choices, &rules);
    drop(choices);
    drop(rules);
    compiled
}
