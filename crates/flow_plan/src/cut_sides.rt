ghost use Rattle.std.specs.Prelude.{◌≤◌, ◌<◌, ◌*◌, ◌↔◌, ◌⊎◌, IsTrue};
ghost use Rattle.leaf_rows.specs.Leaves.{has_leaf};
ghost use Rattle.flow_plan.specs.CutSides.{AreCut};

use crate::sides::Sides;
use leaf_rows::LeafSet;

/// What the sides say, as far as rows of one width have room.
#[derive(Clone, Copy)]
pub(crate) struct CutSides<const W: usize> {
    pub(crate) done: LeafSet<W>,
    pub(crate) settled: LeafSet<W>,
    pub(crate) closed: LeafSet<W>,
}

impl<const W: usize> CutSides<W> {
    /// Whether the leaf is done or closed off.
    pub(crate) fn rule_out(&self, leaf: u32) -> bool
        requires { leaf < 64 * W }
        ensures { IsTrue result ↔ (IsTrue (has_leaf self.now.done leaf) ⊎ IsTrue (has_leaf self.now.closed leaf)) }
    {
        self.done.has(leaf) || self.closed.has(leaf)
    }
}

impl Sides {
    /// What rows of that width have room for.
    pub(crate) fn cut<const W: usize>(&self) -> CutSides<W>
        requires { W ≤ 64 }
        ensures { AreCut self.now result }
    {
        CutSides {
            done: self.done.resized(),
            settled: self.settled.resized(),
            closed: self.closed.resized(),
        }
    }
}
