ghost use Rattle.std.specs.Prelude.{◌≡◌, ◌<◌, ◌+◌, ℕ, IfOk, IfSome, Some, length};
ghost use Rattle.flow_model.specs.Facts.{event_at};
ghost use Rattle.flow_goal.specs.Times as times;
ghost use Rattle.flow_goal.specs.Times.{AreTimes, IsRepeated, Stands};

use crate::tree::Tree;
use std::alloc::{AllocError, Global};

/// How many leaves have an event.
#[derive(Clone, Copy)]
pub(crate) enum Times {
    Never,
    Once,
    Again,
}

impl Times {
    /// With one leaf more.
    fn more(self) -> Times
        ensures { result ≡ times.more self }
    {
        match self {
            Times::Never => Times::Once,
            Times::Once | Times::Again => Times::Again,
        }
    }

    /// The event that has come so often, if it comes again for the first time.
    fn repeated(self, event: u32) -> Option<u32>
        ensures { result ≡ times.repeated self event }
    {
        match self {
            Times::Once => Some(event),
            Times::Never | Times::Again => None,
        }
    }
}

/// How many leaves before that one have the event.
fn times_before(tree: &Tree, leaf: u32, event: u32) -> Times
    ensures { Stands tree.now leaf event result }
{
    let mut times = Times::Never;
    for other in 0..leaf {
        if tree.has_event(other, event) {
            times = times.more();
        }
        if matches!(times, Times::Again) {
            return times;
        }
    }
    times
}

/// The event of a leaf, where just one leaf before it has that event.
pub(crate) fn repeated_at(tree: &Tree, leaf: u32) -> Option<u32>
    ensures { IsRepeated tree.now leaf result }
{
    let event = tree.event(leaf)?;
    times_before(tree, leaf, event).repeated(event)
}

/// A number above those of the events of a tree.
fn events_end(tree: &Tree) -> usize
    ensures { (leaf event : ℕ) → event_at tree.now.labels leaf ≡ Some event → event < result }
{
    let mut end = 0;
    for leaf in 0..tree.leaves() {
        if let Some(event) = tree.event(leaf) {
            end = end.max(event as usize + 1);
        }
    }
    end
}

/// A place for each number up to the greatest of an event.
pub(crate) fn new_table(alloc: Global, tree: &Tree) -> Result<Vec<Times>, AllocError>
    ensures { IfOk result (λ table. AreTimes tree.now 0 table.items) }
{
    vec![in alloc; Times::Never; events_end(tree)]
}

/// As `repeated_at`, by the times of each event before the leaf, to which the leaf is added.
pub(crate) fn repeated_in(tree: &Tree, leaf: u32, table: &mut [Times]) -> Option<u32>
    requires { AreTimes tree.now leaf table.old }
    ensures repeated { IsRepeated tree.now leaf result }
    ensures times { AreTimes tree.now (leaf + 1) table.new }
    ensures within { IfSome result (λ event. event < length table.new) }
{
    let event = tree.event(leaf)?;
    let before = table[event as usize];
    table[event as usize] = before.more();
    before.repeated(event)
}
