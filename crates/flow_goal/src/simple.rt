ghost use Rattle.std.specs.Prelude.{◌≡◌, ℕ, List, IfOk, ◌↔◌};
ghost use Rattle.flow_model.specs.Trace.{Trace};
ghost use Rattle.flow_goal.specs.Goal.{process_of};
ghost use Rattle.flow_goal.specs.Simple as simple;
ghost use Rattle.flow_goal.specs.Simple.{IsSimple, IsSimplified};

use crate::choiceless::Choiceless;
use crate::goal::{Goal, together};
use crate::keeping::{Kept, text_of};
use flow_model::Operator;
use std::alloc::{AllocError, Global};

/// Whether the isolation of the goal says something.
fn is_several(goal: &Goal) -> bool
    ensures { result ≡ simple.is_several (process_of goal.now) }
{
    match goal {
        Goal::Nop | Goal::Leaf(_) | Goal::Iso(_) => false,
        Goal::Serial(..) | Goal::Beside(..) | Goal::Either(..) => true,
    }
}

/// Whether one of two goals that the operator joins is left out.
fn leaves_out(operator: Operator, goal: &Goal) -> bool
    ensures { result ≡ simple.leaves_out operator (process_of goal.now) }
{
    let may = match operator {
        Operator::Serial | Operator::Beside => true,
        Operator::Either => false,
    };
    may && matches!(goal, Goal::Nop)
}

/// Two simple goals as one.
fn simple_together(
    alloc: Global,
    operator: Operator,
    left: Goal,
    right: Goal,
) -> Result<Goal, AllocError>
    ensures { IfOk result (λ g. process_of g ≡ simple.simple_together operator (process_of left) (process_of right)) }
{
    if leaves_out(operator, &left) {
        drop(left);
        return Ok(right);
    }
    if leaves_out(operator, &right) {
        drop(right);
        return Ok(left);
    }
    together(alloc, operator, left, right)
}

/// The isolation of a simple goal, or the goal where that says nothing.
fn simple_isolation(alloc: Global, body: Goal) -> Result<Goal, AllocError>
    ensures { IfOk result (λ g. process_of g ≡ simple.simple_isolation (process_of body)) }
{
    if is_several(&body) {
        Ok(Goal::Iso(Box::new(alloc, body)?))
    } else {
        Ok(body)
    }
}

/// Two goals made simple, as one.
#[cycle(simplifying)]
fn simple_both(
    alloc: Global,
    operator: Operator,
    left: &Goal,
    right: &Goal,
) -> Result<Goal, AllocError>
    ensures { IfOk result (λ g. process_of g ≡
        simple.simple_together operator (simple.simple_of (process_of left.now)) (simple.simple_of (process_of right.now))) }
{
    let left = simple_of(alloc, left)?;
    match simple_of(alloc, right) {
        Ok(right) => simple_together(alloc, operator, left, right),
        Err(refused) => {
            drop(left);
            Err(refused)
        }
    }
}

/// The goal built anew with no `Nop` below another goal but on the sides of choices, and no isolation of a leaf or of an
/// isolation.
#[cycle(simplifying)]
fn simple_of(alloc: Global, goal: &Goal) -> Result<Goal, AllocError>
    ensures { IfOk result (λ g. process_of g ≡ simple.simple_of (process_of goal.now)) }
{
    match goal {
        Goal::Nop => Ok(Goal::Nop),
        Goal::Leaf(n) => Ok(Goal::Leaf(*n)),
        Goal::Serial(left, right) => simple_both(alloc, Operator::Serial, left, right),
        Goal::Beside(left, right) => simple_both(alloc, Operator::Beside, left, right),
        Goal::Either(left, right) => simple_both(alloc, Operator::Either, left, right),
        Goal::Iso(part) => simple_isolation(alloc, simple_of(alloc, part)?),
    }
}

/// The simpler goal.
fn simplified(alloc: Global, goal: &Choiceless) -> Result<Choiceless, AllocError>
    ensures process { IfOk result (λ new. IsSimplified goal.now.process new.process) }
    ensures leaves { IfOk result (λ new. new.leaves ≡ goal.now.leaves) }
    ensures fixed { IfOk result (λ new. new.fixed ≡ goal.now.fixed) }
{
    // what the type keeps of its leaves
    let _leaves = goal.leaves();
    let _fixed = goal.fixed();
    let whole = goal.goal(alloc)?;
    let tree = simple_of(alloc, &whole);
    drop(whole);
    let tree = tree?;
    let text = text_of(alloc, &tree, Kept::All);
    drop(tree);
    let text = text?;
    Ok(Choiceless::new(text.nodes, text.leaves, text.fixed))
}

/// A goal with the same executions and the same leaves, in which there is no `Nop` below another goal and
/// no isolation of a leaf or of an isolation.
pub fn simplify(alloc: Global, goal: Choiceless) -> Result<Choiceless, AllocError>
    ensures traces { IfOk result (λ new. (t : List ℕ) → Trace new.process t ↔ Trace goal.process t) }
    ensures simple { IfOk result (λ new. IsSimple new.process) }
    ensures leaves { IfOk result (λ new. new.leaves ≡ goal.leaves) }
    ensures fixed { IfOk result (λ new. new.fixed ≡ goal.fixed) }
{
    let new = simplified(alloc, &goal);
    drop(goal);
    new
}
