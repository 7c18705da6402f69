ghost use Rattle.std.specs.Prelude.{◌≡◌, ◌<◌, ◌↔◌, false, IsTrue, IfOk, IfErr, IsOk};
ghost use Rattle.flow_sample.specs.declared.sample.ExciseRefusal.TheVariants.{NoMemory};
ghost use Rattle.flow_model.specs.Lists.{Each};
ghost use Rattle.flow_model.specs.Process.{Process, IsChoiceFree};
ghost use Rattle.flow_model.specs.Resolution.{OptionTrace};
ghost use Rattle.flow_goal.specs.LeftSides.{left_sides};
ghost use Rattle.flow_goal.specs.Written.{nodes_of};
ghost use Rattle.flow_plan.specs.Planned.{pairs_of};
ghost use Rattle.flow_sample.specs.Items.{TellsCircle};
ghost use Rattle.flow_plan.specs.Options.{option_of, HasExecution};
ghost use Rattle.flow_sample.specs.Sample.{IsReasonAgainst, TellsFoldedCircle, left_option};

use crate::by_items::run_by_items;
use crate::circle::Circle;
use crate::left_leaves::left_leaves;
use flow_goal::Node;
use flow_plan::{KnotFree, OrderToken, Plan};
use std::alloc::{AllocError, AllocFailed, Global};
use thiserror::Error;

/// Why a plan is not kept.
#[derive(Debug, Drop, Error)]
pub enum ExciseRefusal {
    /// It has no execution, since its leaves wait for each other.
    #[error("the option has no execution: its leaves wait for each other")]
    Circle(Circle),
    /// Nothing is said of the plan.
    #[error("out of memory")]
    NoMemory,
}

impl From<AllocError> for ExciseRefusal {
    ghost from_gives = { λ _ e. e ≡ NoMemory };

    fn from(_error: AllocError) -> ExciseRefusal {
        ExciseRefusal::NoMemory
    }
}

impl<T: Drop> From<AllocFailed<T>> for ExciseRefusal {
    ghost from_gives = { λ _ e. e ≡ NoMemory };

    fn from(_error: AllocFailed<T>) -> ExciseRefusal {
        ExciseRefusal::NoMemory
    }
}

/// Whether each token leads from a lesser leaf to a greater one.
fn lead_forward(tokens: &[OrderToken]) -> bool
    ensures { IsTrue result ↔ Each (λ token. token.sender < token.receiver) tokens.now }
{
    for token in tokens {
        if token.receiver <= token.sender {
            return false;
        }
    }
    true
}

/// Whether a choice is among the marks.
fn has_choice(nodes: &[Node]) -> bool
    ensures { (q : Process) → nodes.now ≡ nodes_of q → result ≡ false → IsChoiceFree q }
{
    for node in nodes {
        if matches!(node, Node::Choose) {
            return true;
        }
    }
    false
}

/// An execution of a plan without choices, or why there is none. Where all tokens lead forward, the leaves from
/// left to right are one.
fn run_without_choices(alloc: Global, plan: &Plan) -> Result<Vec<u32>, ExciseRefusal>
    requires { IsChoiceFree plan.now.process }
    ensures ok { IfOk result (λ run. OptionTrace (option_of plan.now) run.items) }
    ensures circle { IfErr result (TellsCircle plan.now.process (pairs_of plan.now.tokens)) }
{
    let leaves = plan.leaves();
    if lead_forward(plan.tokens()) {
        return Ok(Vec::from_slice(alloc, leaves)?);
    }
    run_by_items(alloc, plan)
}

/// The circle outside choices of a plan that has no execution with the left side taken at each choice.
fn circle_outside(alloc: Global, plan: &Plan) -> ExciseRefusal
    requires { ¬ (HasExecution (left_option plan.now)) }
    ensures { TellsFoldedCircle plan.now.process (pairs_of plan.now.tokens) result }
{
    // what the type keeps of its tokens
    let _tokens = plan.tokens();
    let Ok(outside) = plan.outside(alloc) else {
        return ExciseRefusal::NoMemory;
    };
    match run_without_choices(alloc, &outside) {
        Ok(_) => unreachable!(),
        Err(refusal) => refusal,
    }
}

/// An execution of a plan by that of its left sides, or why there is none. Each way to take the sides has one, or
/// none has.
fn run_by_left_sides(alloc: Global, plan: &Plan, left: &Plan) -> Result<Vec<u32>, ExciseRefusal>
    requires process { left.now.process ≡ left_sides plan.now.process }
    requires tokens { left.now.tokens ≡ plan.now.tokens }
    ensures ok { IfOk result (λ run. OptionTrace (option_of plan.now) run.items) }
    ensures circle { IfErr result (TellsFoldedCircle plan.now.process (pairs_of plan.now.tokens)) }
{
    // what the types keep of their tokens
    let _tokens = plan.tokens();
    let _same_tokens = left.tokens();
    match run_without_choices(alloc, left) {
        Err(ExciseRefusal::Circle(_)) => Err(circle_outside(alloc, plan)),
        other => other,
    }
}

/// An execution of a plan with choices, or why there is none. Where all tokens lead forward, the leaves on left sides,
/// from left to right, are one, and no plan of them is made.
fn run_with_choices(alloc: Global, plan: &Plan) -> Result<Vec<u32>, ExciseRefusal>
    ensures ok { IfOk result (λ run. OptionTrace (option_of plan.now) run.items) }
    ensures circle { IfErr result (TellsFoldedCircle plan.now.process (pairs_of plan.now.tokens)) }
{
    // what the type keeps of its leaves
    let _leaves = plan.leaves();
    if lead_forward(plan.tokens()) {
        return Ok(left_leaves(alloc, plan)?);
    }
    let left = plan.left_sides(alloc)?;
    let run = run_by_left_sides(alloc, plan, &left);
    drop(left);
    run
}

/// An execution of a plan, or why there is none.
fn run_of_plan(alloc: Global, plan: &Plan) -> Result<Vec<u32>, ExciseRefusal>
    ensures ok { IfOk result (λ run. OptionTrace (option_of plan.now) run.items) }
    ensures circle { IfErr result (TellsFoldedCircle plan.now.process (pairs_of plan.now.tokens)) }
{
    if has_choice(plan.nodes()) {
        run_with_choices(alloc, plan)
    } else {
        run_without_choices(alloc, plan)
    }
}

/// Finds an execution of a plan, or why there is none.
pub fn excise(alloc: Global, plan: Plan) -> Result<KnotFree, ExciseRefusal>
    ensures ok { IfOk result (λ kept. kept.plan ≡ plan) }
    ensures executed { IsOk result → HasExecution (option_of plan) }
    ensures circle { IfErr result (IsReasonAgainst (option_of plan)) }
{
    // what the type keeps of its tokens
    let _tokens = plan.tokens();
    match run_of_plan(alloc, &plan) {
        Ok(run) => Ok(KnotFree::new(plan, run)),
        Err(refusal) => {
            drop(plan);
            Err(refusal)
        }
    }
}
