ghost use Rattle.std.specs.Prelude.{◌≡◌, ◌≢◌, ◌<◌, ◌^◌, ◌↔◌, ℕ, List, IfOk, length, map};
ghost use Rattle.flow_model.specs.declared.limits.TheConstants.{MOST_LEAVES};
ghost use Rattle.flow_model.specs.Lists.{◌∈◌, Each, numbers_from};
ghost use Rattle.flow_model.specs.FoldedReady.{IsCompleteFoldedRun};
ghost use Rattle.flow_model.specs.Resolution.{OptionTrace};
ghost use Rattle.flow_plan.specs.Planned.{pairs_of, token_numbers};
ghost use Rattle.flow_weave.specs.Woven.{option_with};

use flow_goal::Choiceless;
use flow_plan::{OrderToken, Plan};
use flow_rules::OrderSet;
use std::alloc::{AllocError, Global};

/// A token for each pair of leaves, numbered from 0.
fn tokens_of(alloc: Global, pairs: &[(u32, u32)]) -> Result<Vec<OrderToken>, AllocError>
    requires { length pairs.now < 2 ^ 32 }
    ensures pairs { IfOk result (λ tokens. pairs_of tokens.items ≡ pairs.now) }
    ensures numbers { IfOk result (λ tokens.
        token_numbers tokens.items ≡ numbers_from 0 (length pairs.now)) }
{
    let mut tokens = Vec::with_capacity(alloc, pairs.len())?;
    for (number, (sender, receiver)) in pairs.iter().enumerate() {
        tokens.push(OrderToken {
            number: number as u32,
            sender: *sender,
            receiver: *receiver,
        })?;
    }
    Ok(tokens)
}

/// The plan of an option: the goal as it is, and a token for each pair of the order, numbered from 0.
pub fn weave(alloc: Global, goal: &Choiceless, order: &OrderSet) -> Result<Plan, AllocError>
    requires few { length order.now.pairs.items < 2 ^ 32 }
    requires small { Each (λ n. n < MOST_LEAVES) goal.now.leaves }
    requires of_fixed { Each (λ pair. (pair.0 ∈ goal.now.fixed) × (pair.1 ∈ goal.now.fixed)) order.now.pairs.items }
    requires different { Each (λ pair. pair.0 ≢ pair.1) order.now.pairs.items }
    ensures process { IfOk result (λ plan. plan.process ≡ goal.now.process) }
    ensures pairs { IfOk result (λ plan. pairs_of plan.tokens ≡ order.now.pairs.items) }
    ensures numbers { IfOk result (λ plan.
        token_numbers plan.tokens ≡ numbers_from 0 (length order.now.pairs.items)) }
    // a run that goes by the plan to its end is an execution of the option
    ensures traces { IfOk result (λ plan. (t : List ℕ) →
        IsCompleteFoldedRun plan.process (pairs_of plan.tokens) t
        ↔ OptionTrace (option_with goal.now.process order.now) t) }
{
    let tokens = tokens_of(alloc, order.pairs())?;
    let plan = Plan::new(alloc, goal, tokens)?;
    Ok(plan)
}
