//! The stages that were reached, each with how it came to be.
ghost use Rattle.std.specs.Prelude.{ℕ, List, IsTrue, IfOk};
ghost use Rattle.flow_model.specs.Duties.{Duties};
ghost use Rattle.flow_model.specs.Schema.{Schema};
ghost use Rattle.flow_plan.specs.Planned.{Planned};
ghost use Rattle.flow_stages.specs.declared.question.Question.{Question};
ghost use Rattle.flow_stages.specs.Asked.{IsShown};
ghost use Rattle.flow_stages.specs.Listed.{IsListed, IsOpen, IsHopelessLook, IsTold};
ghost use Rattle.flow_stages.specs.Stages.{IsAfter};

use crate::search::{Look, Takers};
use crate::stage::Stage;
use std::alloc::AllocError;

/// A stage, and how it came to be.
#[derive(Drop)]
pub struct Node {
    pub(crate) stage: Stage,
    /// The leaves that were done, in order.
    pub(crate) leaves: Vec<u32>,
}

/// Whether the stage was reached already, with so many leaves done. Stages with fewer stand before all with more.
pub(crate) fn is_known(nodes: &[Node], stage: &Stage, count: usize) -> bool
    ensures { (w : Schema) (list : List ℕ) → IsTrue result → IsAfter w list stage.now → IsListed w nodes.now list }
{
    for back in 0..nodes.len() {
        let node = &nodes[nodes.len() - 1 - back];
        if node.leaves.len() < count {
            return false;
        }
        if node.stage.is_as(stage) {
            return true;
        }
    }
    false
}

impl Node {
    /// That what is asked is so at the stage, with these takers, of this event.
    pub(crate) fn shown(&self, takers: Takers, event: u32) -> Result<Look, AllocError>
        ensures told { (w : Schema) (d : Duties) (p : Planned) (question : Question) (left : ℕ) →
            IsShown w d p question self.now.leaves.items takers.items event → IfOk result (IsTold w d p question left) }
        ensures other { IfOk result (λ look. ¬ (IsOpen look) × ¬ (IsHopelessLook look)) }
    {
        let leaves = self.leaves.clone()?;
        Ok(Look::Shown(leaves, takers, event))
    }
}
