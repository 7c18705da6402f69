ghost use Rattle.std.specs.Prelude.{◌≡◌, ◌∷◌, [], ◌↔◌, IfOk, IsTrue, OnOk};
ghost use Rattle.flow_goal.specs.declared.node.Node.TheVariants.{Leaf};
ghost use Rattle.flow_goal.specs.Pattern.{line_of, nothing, then};

use crate::node::Node;
use std::alloc::{AllocError, Global};

/// Marks and leaves of goals whose choices all stay, from left to right.
#[derive(Drop)]
pub(crate) struct Text {
    pub(crate) nodes: Vec<Node>,
    pub(crate) leaves: Vec<u32>,
    /// Those of them that stand outside choices.
    pub(crate) fixed: Vec<u32>,
}

impl Text {
    /// Nothing is written yet.
    pub(crate) fn new(alloc: Global) -> Text
        ensures { line_of result ≡ nothing }
    {
        Text {
            nodes: Vec::new(alloc),
            leaves: Vec::new(alloc),
            fixed: Vec::new(alloc),
        }
    }

    /// Nothing is written yet. There is room for so many leaves, and for the marks of as many.
    pub(crate) fn with_room(alloc: Global, leaves: u32) -> Result<Text, AllocError>
        ensures { IfOk result (λ new. line_of new ≡ nothing) }
    {
        let room = leaves as usize;
        Ok(Text {
            nodes: Vec::with_capacity(alloc, 4 * room)?,
            leaves: Vec::with_capacity(alloc, room)?,
            fixed: Vec::with_capacity(alloc, room)?,
        })
    }

    /// Whether nothing is written.
    pub(crate) fn is_empty(&self) -> bool
        ensures { IsTrue result ↔ line_of self.now ≡ nothing }
    {
        self.nodes.is_empty() && self.leaves.is_empty() && self.fixed.is_empty()
    }

    /// Puts a mark behind what is written.
    #[tactic(auto, using(crate::proofs::PatternLemmas::mark_put))]
    pub(crate) fn put(&mut self, node: Node) -> Result<(), AllocError>
        ensures { OnOk result (line_of self.new ≡ then (line_of self.old) (record { nodes = node ∷ []; leaves = []; fixed = [] })) }
    {
        self.nodes.push(node)?;
        Ok(())
    }

    /// Puts a leaf outside choices behind what is written.
    pub(crate) fn put_leaf(&mut self, leaf: u32) -> Result<(), AllocError>
        ensures { OnOk result (line_of self.new ≡ then (line_of self.old) (record { nodes = Leaf ∷ []; leaves = leaf ∷ []; fixed = leaf ∷ [] })) }
    {
        self.put_chosen_leaf(leaf)?;
        self.fixed.push(leaf)?;
        Ok(())
    }

    /// Puts a leaf in a choice behind what is written.
    pub(crate) fn put_chosen_leaf(&mut self, leaf: u32) -> Result<(), AllocError>
        ensures { OnOk result (line_of self.new ≡ then (line_of self.old) (record { nodes = Leaf ∷ []; leaves = leaf ∷ []; fixed = [] })) }
    {
        self.nodes.push(Node::Leaf)?;
        self.leaves.push(leaf)?;
        Ok(())
    }

    /// Puts the other text behind what is written.
    pub(crate) fn put_all(&mut self, other: &Text) -> Result<(), AllocError>
        ensures { OnOk result (line_of self.new ≡ then (line_of self.old) (line_of other.now)) }
    {
        self.nodes.extend_from_slice(&other.nodes)?;
        self.leaves.extend_from_slice(&other.leaves)?;
        self.fixed.extend_from_slice(&other.fixed)?;
        Ok(())
    }
}
