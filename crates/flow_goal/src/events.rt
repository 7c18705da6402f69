ghost use Rattle.std.specs.Prelude.{◌+◌, ◌↔◌, ℕ, IsNone, IfOk, IfSome, MatchOption, length};
ghost use Rattle.flow_model.specs.Process.{IsNumbered};
ghost use Rattle.flow_goal.specs.Batches.{AreBatchesOf};
ghost use Rattle.flow_goal.specs.Repeats.{HoldsNoneOf, HoldsNoneTwice, IsFirstOf, IsFirstTwice, IsFoundBefore};
ghost use Rattle.flow_goal.specs.Times.{IsRepeated};

use crate::batches::Batches;
use crate::occurrence::{Occurrence, occurrence_of};
use crate::repeats::{Twice, sooner};
use crate::times::{new_table, repeated_at, repeated_in};
use crate::tree::Tree;
use std::alloc::{AllocError, Global};

/// The first pair of one event. It costs a walk of the goal.
fn twice_of(tree: &Tree, event: u32) -> Option<Twice>
    requires { IsNumbered tree.now.process (length tree.now.labels) }
    ensures { MatchOption result (HoldsNoneOf tree.now event) (IsFirstOf tree.now event) }
{
    match occurrence_of(tree.goal(), tree, event) {
        Occurrence::Never | Occurrence::Once(_) => None,
        Occurrence::Again(_, first, second) => Some(Twice {
            event,
            first,
            second,
        }),
    }
}

/// What is found with what one event more has.
fn found_with(tree: &Tree, event: Option<u32>, found: Option<Twice>) -> Option<Twice>
    requires { IsNumbered tree.now.process (length tree.now.labels) }
    ensures { (leaf : ℕ) → IsRepeated tree.now leaf event → IsFoundBefore tree.now leaf found → IsFoundBefore tree.now (leaf + 1) result }
{
    match event {
        Some(event) => sooner(found, twice_of(tree, event)),
        None => found,
    }
}

/// As `found_with`, where the event is not looked for if no execution can hold it twice.
fn found_beside(
    tree: &Tree,
    batches: &Batches,
    event: Option<u32>,
    found: Option<Twice>,
) -> Option<Twice>
    requires numbered { IsNumbered tree.now.process (length tree.now.labels) }
    requires batches { AreBatchesOf tree.now batches.now }
    ensures { (leaf : ℕ) → IsRepeated tree.now leaf event → IsFoundBefore tree.now leaf found → IsFoundBefore tree.now (leaf + 1) result }
{
    match event {
        Some(again) => {
            if batches.may_repeat(again) {
                found_with(tree, event, found)
            } else {
                found
            }
        }
        None => found,
    }
}

/// An event that some execution holds twice: of all pairs of its leaves the one with the least first
/// leaf, and of those the one with the least second. It takes no memory, and costs a look at the leaves before it for each leaf,
/// and a walk of the goal for each event that several leaves have.
pub fn twice(tree: &Tree) -> Option<Twice>
    ensures none { IsNone result ↔ HoldsNoneTwice tree.now }
    ensures some { IfSome result (IsFirstTwice tree.now) }
{
    let mut found = None;
    for leaf in 0..tree.leaves() {
        found = found_with(tree, repeated_at(tree, leaf), found);
    }
    found
}

/// As `twice`, with tables that have a place for each number up to the greatest of an event: it costs a look at each leaf,
/// a walk of the goal for each 64 events that several leaves have, and one for each event that some execution holds twice.
pub fn twice_by_table(alloc: Global, tree: &Tree) -> Result<Option<Twice>, AllocError>
    ensures none { IfOk result (λ found. IsNone found ↔ HoldsNoneTwice tree.now) }
    ensures some { IfOk result (λ found. IfSome found (IsFirstTwice tree.now)) }
{
    let batches = Batches::of(alloc, tree)?;
    let mut table = new_table(alloc, tree)?;
    let mut found = None;
    for next in 0..tree.leaves() {
        let event = repeated_in(tree, next, &mut table);
        found = found_beside(tree, &batches, event, found);
    }
    Ok(found)
}
