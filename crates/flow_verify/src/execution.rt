ghost use Rattle.std.specs.Prelude.{◌≤◌, IfOk, MatchOption, MatchResult, length};
ghost use Rattle.flow_goal.specs.Repeats.{HoldsNoneTwice};
ghost use Rattle.flow_model.specs.declared.limits.TheConstants.{MOST_LEAVES};
ghost use Rattle.flow_model.specs.Lists.{◌∈◌};
ghost use Rattle.flow_model.specs.Resolution.{ChoiceOption, OptionTrace};
ghost use Rattle.flow_model.specs.Schema.{IsGood};
ghost use Rattle.flow_laws.specs.WellFormed.{IsConsistent};
ghost use Rattle.flow_workflow.specs.Rule.{rules_of};
ghost use Rattle.flow_plan.specs.Options.{options_of};
ghost use Rattle.flow_plan.specs.Compilation.{IsWithinLimits};
ghost use Rattle.flow_excise.specs.Options.{schema_with};
ghost use Rattle.flow_verify.specs.Verification.{IsRefused};

use crate::refusal::VerifyRefusal;
use flow_excise::{CompileRefusal, Compiled, compile};
use flow_goal::Tree;
use flow_workflow::Rule;
use std::alloc::{AllocError, Global};

/// The execution that comes with the first plan.
fn first_sample(alloc: Global, compiled: &Compiled) -> Result<Vec<u32>, AllocError>
    ensures { IfOk result (λ sample. (o : ChoiceOption) × (o ∈ options_of compiled.now.plans) × OptionTrace o sample.items) }
{
    let plans = compiled.plans();
    Vec::from_slice(alloc, plans[0].sample())
}

/// An execution of the tree that meets the rules. `None` where there is none.
pub(crate) fn good_execution(
    alloc: Global,
    tree: &Tree,
    rules: &[Rule],
) -> Result<Option<Vec<u32>>, VerifyRefusal>
    requires unique { HoldsNoneTwice tree.now }
    requires small { length tree.now.labels ≤ MOST_LEAVES }
    ensures { MatchResult result
        (λ found. IsWithinLimits (schema_with tree.now (rules_of rules.now)) × MatchOption found
        (¬ (IsConsistent (schema_with tree.now (rules_of rules.now))))
        (λ t. IsGood (schema_with tree.now (rules_of rules.now)) t.items))
        (IsRefused (schema_with tree.now (rules_of rules.now))) }
{
    // what the type keeps of its leaves
    let _leaves = tree.leaves();
    match compile(alloc, tree, rules) {
        Ok(compiled) => Ok(Some(first_sample(alloc, &compiled)?)),
        Err(CompileRefusal::Inconsistent { .. }) => Ok(None),
        Err(CompileRefusal::TooManyChoices { count }) => {
            Err(VerifyRefusal::TooManyChoices { count })
        }
        Err(CompileRefusal::TooManyWays { count }) => Err(VerifyRefusal::TooManyWays { count }),
        Err(CompileRefusal::TooBulky { count }) => Err(VerifyRefusal::TooBulky { count }),
        Err(CompileRefusal::NoMemory) => Err(VerifyRefusal::NoMemory),
    }
}
