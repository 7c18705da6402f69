//! Claims that are in the way of a leaf.
ghost use Rattle.std.specs.Prelude.{◌≡◌, ◌↔◌, ◌<◌, ◌+◌, ◌++◌, ◌∷◌, [], ℕ, List, IsTrue, IfOk, IfNone, IfSome, is_some, length, take, drop};
ghost use Rattle.flow_model.specs.Facts.{event_at};
ghost use Rattle.flow_model.specs.Lists.{◌∈◌};
ghost use Rattle.flow_model.specs.Run.{RunState};
ghost use Rattle.flow_model.specs.Schema.{Schema};
ghost use Rattle.flow_laws.specs.WellFormed.{IsWellFormed};
ghost use Rattle.flow_plan.specs.Compilation.{IsCompiled, IsWithinLimits};
ghost use Rattle.flow_core.specs.Run.{schema, now};
ghost use Rattle.flow_residual.specs.Remaining.{IsOf};
ghost use Rattle.flow_why.specs.Fronts.{IsFront};
ghost use Rattle.flow_standing.specs.declared.claims.Out.{Out};
ghost use Rattle.flow_reason.specs.InTheWay.{unbanned, leaves_of, MayCome};

use crate::compiled::compiled_again;
use flow_core::Core;
use flow_plan::Compiled;
use flow_residual::Residual;
use flow_standing::Out;
use std::alloc::{AllocError, Global};

/// What remains of a compiled workflow after these leaves, with none banned; nothing where they cannot come so.
fn after_leaves(
    alloc: Global,
    compiled: Compiled,
    leaves: &[u32],
) -> Result<Option<Residual>, AllocError>
    ensures some { (w : Schema) (s : RunState) → IsWellFormed w → IsCompiled w compiled → s.journal ≡ leaves.now → s.bans ≡ [] →
        IfOk result (λ found. IfSome found (IsOf w s)) }
    ensures none { (w : Schema) → IsWellFormed w → IsCompiled w compiled → IfOk result (λ found. IfNone found (¬ (IsFront w leaves.now))) }
{
    let mut residual = Residual::new(alloc, compiled)?;
    for leaf in leaves {
        if !residual.legal_do(&[], *leaf) {
            return Ok(None);
        }
        residual.push(*leaf);
    }
    Ok(Some(residual))
}

/// What would remain of a run's workflow if nothing had been given up; nothing where it is past the limits.
pub(crate) fn ungiven(alloc: Global, core: &Core) -> Result<Option<Residual>, AllocError>
    ensures some { IfOk result (λ found. IfSome found (IsOf (schema core.now) (unbanned (now core.now)))) }
    ensures none { IfOk result (λ found. IfNone found (¬ (IsWithinLimits (schema core.now)))) }
{
    // what the workflow keeps of its goal, and the history
    let _ = core.workflow().tree();
    let _ = core.history();
    match compiled_again(alloc, core)? {
        Some(compiled) => after_leaves(alloc, compiled, core.journal()),
        None => Ok(None),
    }
}

/// Whether the leaf is an event's.
pub(crate) fn is_event(core: &Core, leaf: u32) -> bool
    ensures { result ≡ is_some (event_at (schema core.now).labels leaf) }
{
    core.workflow().tree().event(leaf).is_some()
}

/// Whether the leaf may come with these leaves out: an event's among them, in every order, or another before them.
fn may_come(residual: &Residual, is_event: bool, out: &[u32], leaf: u32) -> bool
    ensures { (w : Schema) (s : RunState) → IsOf w s residual.now → IsTrue result ↔ MayCome is_event w s leaf out.now }
{
    if is_event {
        residual.legal_take(out, leaf)
    } else {
        residual.legal_do(out, leaf)
    }
}

/// The leaves of the claims.
fn leaves_out(alloc: Global, outs: &[Out]) -> Result<Vec<u32>, AllocError>
    ensures { IfOk result (λ leaves. leaves.items ≡ leaves_of outs.now) }
{
    outs.iter().map(|out| out.call.leaf).collect(alloc)
}

/// Whether the leaf may come with just these claims out.
pub(crate) fn may_come_with(
    alloc: Global,
    residual: &Residual,
    is_event: bool,
    outs: &[Out],
    leaf: u32,
) -> Result<bool, AllocError>
    ensures { (w : Schema) (s : RunState) → IsOf w s residual.now → IfOk result (λ may. IsTrue may ↔ MayCome is_event w s leaf (leaves_of outs.now)) }
{
    let leaves = leaves_out(alloc, outs)?;
    Ok(may_come(residual, is_event, &leaves, leaf))
}

/// Some claims, and more behind them.
fn joined(alloc: Global, some: &[Out], more: &[Out]) -> Result<Vec<Out>, AllocError>
    ensures { IfOk result (λ all. all.items ≡ some.now ++ more.now) }
{
    let mut all = Vec::from_slice(alloc, some)?;
    all.extend_from_slice(more)?;
    Ok(all)
}

/// Those of the claims with which the leaf may not come, where it may not come with all of them: it may come with all but one of them.
pub(crate) fn least_in_the_way(
    alloc: Global,
    residual: &Residual,
    is_event: bool,
    outs: &[Out],
    leaf: u32,
) -> Result<Vec<Out>, AllocError>
    ensures among { IfOk result (λ kept. (out : Out) → out ∈ kept.items → out ∈ outs.now) }
    ensures blocked { (w : Schema) (s : RunState) → IsOf w s residual.now → ¬ (MayCome is_event w s leaf (leaves_of outs.now)) →
        IfOk result (λ kept. ¬ (MayCome is_event w s leaf (leaves_of kept.items))) }
    ensures least { (w : Schema) (s : RunState) → IsOf w s residual.now →
        IfOk result (λ kept. (front back : List Out) (out : Out) → kept.items ≡ front ++ out ∷ back → MayCome is_event w s leaf (leaves_of (front ++ back))) }
{
    let mut kept = Vec::new(alloc);
    for place in 0..outs.len() {
        let without = joined(alloc, &kept, &outs[place + 1..])?;
        if may_come_with(alloc, residual, is_event, &without, leaf)? {
            kept.push(outs[place])?;
        }
    }
    Ok(kept)
}
