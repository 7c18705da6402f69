ghost use Rattle.std.specs.Prelude.{◌≡◌, ◌<◌, ◌≤◌, ◌*◌, length, All, IfOk};
ghost use Rattle.flow_model.specs.Lists.{Each};
ghost use Rattle.flow_model.specs.Ready.{InSequence, DirectlyBefore};
ghost use Rattle.flow_fold_laws.specs.Unfolding.{IsFoldedOrdered};
ghost use Rattle.flow_plan.specs.declared.token.OrderToken.{OrderToken};
ghost use Rattle.flow_plan.specs.Planned.{pairs_of};
ghost use Rattle.flow_plan.specs.Rows.{AreRowsOf};

use crate::places::place_of;
use crate::sweep::Sweep;
use crate::token::OrderToken;
use flow_goal::Choiceless;
use leaf_rows::LeafSet;
use std::alloc::{AllocError, Global};

/// For each leaf of the goal, in order, the leaves before it in the goal.
#[tactic(auto, using(crate::proofs::MarkLemmas::begun_rows))]
fn sequence_rows<const W: usize>(
    alloc: Global,
    goal: &Choiceless,
) -> Result<Vec<LeafSet<W>>, AllocError>
    requires wide { W ≤ 64 }
    requires small { Each (λ n. n < 64 * W) goal.now.leaves }
    ensures { IfOk result (λ rows. AreRowsOf (InSequence goal.now.process) goal.now.leaves rows.items) }
{
    let leaves = goal.leaves();
    let mut sweep = Sweep::new(alloc, leaves.len())?;
    for node in goal.nodes() {
        // no mark after the last leaf makes a row
        if sweep.rows.len() == leaves.len() {
            return Ok(sweep.rows);
        }
        sweep.pass(node, leaves)?;
    }
    Ok(sweep.rows)
}

/// Puts the sender of each token into the row of its receiver.
#[tactic(auto, using(crate::proofs::RowLemmas::rows_unpaired))]
fn add_senders<const W: usize>(goal: &Choiceless, tokens: &[OrderToken], rows: &mut [LeafSet<W>])
    requires senders { All (λ (t : OrderToken). t.sender < 64 * W) tokens.now }
    requires one_each { length rows.old ≡ length goal.now.leaves }
    requires rows { AreRowsOf (InSequence goal.now.process) goal.now.leaves rows.old }
    ensures { AreRowsOf (DirectlyBefore goal.now.process (pairs_of tokens.now)) goal.now.leaves rows.new }
{
    let leaves = goal.leaves();
    for token in tokens {
        if let Some(place) = place_of(leaves, token.receiver) {
            rows[place].insert(token.sender);
        }
    }
}

/// For each leaf of the goal, in order, the leaves directly before it.
#[tactic(auto, using(crate::proofs::RowLemmas::rows_length, crate::proofs::RowLemmas::senders_small))]
pub(crate) fn before_rows<const W: usize>(
    alloc: Global,
    goal: &Choiceless,
    tokens: &[OrderToken],
) -> Result<Vec<LeafSet<W>>, AllocError>
    requires wide { W ≤ 64 }
    requires small { Each (λ n. n < 64 * W) goal.now.leaves }
    requires ordered { IsFoldedOrdered goal.now.process (pairs_of tokens.now) }
    ensures { IfOk result (λ rows.
        AreRowsOf (DirectlyBefore goal.now.process (pairs_of tokens.now)) goal.now.leaves rows.items) }
{
    // what the type keeps of its leaves
    let _leaves = goal.leaves();
    let mut rows = sequence_rows(alloc, goal)?;
    add_senders(goal, tokens, &mut rows);
    Ok(rows)
}
