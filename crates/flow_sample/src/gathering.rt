ghost use Rattle.std.specs.Prelude.{◌≡◌, ◌<◌, ◌≤◌, ◌+◌, ◌*◌, ◌^◌, [], ◌∷◌, List, ℕ, IfSome, MatchResult, slice_get};
ghost use Rattle.flow_model.specs.Lists.{Each};
ghost use Rattle.flow_model.specs.Process.{IsChoiceFree};
ghost use Rattle.flow_plan.specs.Planned.{pairs_of};
ghost use Rattle.flow_goal.specs.declared.node.Node.{Node};
ghost use Rattle.flow_goal.specs.declared.node.Node.TheVariants.{Leaf, Open, Close};
ghost use Rattle.flow_sample.specs.Rows.{AreApart, HasSome};
ghost use Rattle.flow_sample.specs.Arranged.{AddsOneOf, TellsRing};
ghost use Rattle.flow_sample.specs.Items.{TellsCircle};
ghost use Rattle.flow_sample.specs.ItemMarks.{Gathers, ReadsMark};

use crate::item::Item;
use crate::order::run_of;
use crate::sample::ExciseRefusal;
use flow_goal::Node;
use flow_plan::Plan;
use std::alloc::{AllocError, Global};
use std::mem;

/// The items of a goal that is read from left to right.
#[derive(Drop)]
pub(crate) struct Gathering<const W: usize> {
    /// The place of the next leaf.
    pub(crate) place: usize,
    /// Those of the innermost isolated part that has begun.
    pub(crate) items: Vec<Item<W>>,
    /// Those of each part around it.
    pub(crate) outer: Vec<Vec<Item<W>>>,
}

/// Puts the items of an isolated part behind the list, as one.
fn add_part<const W: usize>(
    alloc: Global,
    inner: &[Item<W>],
    items: &mut Vec<Item<W>>,
) -> Result<(), ExciseRefusal>
    requires wide { W ≤ 64 }
    requires apart { AreApart inner.now }
    requires some { HasSome inner.now }
    ensures { MatchResult result
        (λ _. AddsOneOf inner.now items.old.items items.new.items)
        (TellsRing inner.now) }
{
    let run = run_of(alloc, inner)?;
    items.push(Item::of_part(inner, run))?;
    Ok(())
}

/// The leaf at that place.
pub(crate) fn leaf_in_place(plan: &Plan, place: usize) -> Option<u32>
    ensures leaf { result ≡ slice_get plan.now.leaves place }
    ensures small { (most : ℕ) → Each (λ n. n < most) plan.now.leaves → IfSome result (λ leaf. leaf < most) }
    ensures next { IfSome result (λ _. place + 1 < 2 ^ 64) }
{
    plan.leaves().get(place).copied()
}

impl<const W: usize> Gathering<W> {
    /// A leaf is an item.
    fn leaf(&mut self, alloc: Global, plan: &Plan) -> Result<(), ExciseRefusal>
        requires wide { W ≤ 64 }
        requires small { Each (λ n. n < 64 * W) plan.now.leaves }
        requires choice_free { IsChoiceFree plan.now.process }
        ensures { MatchResult result
            (λ _. ReadsMark plan.now Leaf self.old self.new)
            (TellsCircle plan.now.process (pairs_of plan.now.tokens)) }
    {
        // what the type keeps of its tokens
        let _tokens = plan.tokens();
        if let Some(leaf) = leaf_in_place(plan, self.place) {
            self.items.push(Item::of_leaf(alloc, plan, leaf)?)?;
            self.place += 1;
        }
        Ok(())
    }

    /// A part begins.
    fn open(&mut self, alloc: Global, plan: &Plan) -> Result<(), ExciseRefusal>
        requires { W ≤ 64 }
        ensures { MatchResult result
            (λ _. ReadsMark plan.now Open self.old self.new)
            (TellsCircle plan.now.process (pairs_of plan.now.tokens)) }
    {
        let around = mem::replace(&mut self.items, Vec::new(alloc));
        self.outer.push(around)?;
        Ok(())
    }

    /// A part ends: its items are one, unless they wait for each other.
    fn close(&mut self, alloc: Global, plan: &Plan) -> Result<(), ExciseRefusal>
        requires wide { W ≤ 64 }
        requires gathers { (nodes : List Node) × Gathers plan.now (Close ∷ nodes) self.old }
        ensures { MatchResult result
            (λ _. ReadsMark plan.now Close self.old self.new)
            (TellsCircle plan.now.process (pairs_of plan.now.tokens)) }
    {
        if let Some(mut before) = self.outer.pop() {
            if !self.items.is_empty() {
                add_part(alloc, &self.items, &mut before)?;
            }
            self.items = before;
        }
        Ok(())
    }

    /// Reads one mark, unless the items of a part that ends wait for each other.
    pub(crate) fn read(
        &mut self,
        alloc: Global,
        plan: &Plan,
        node: &Node,
    ) -> Result<(), ExciseRefusal>
        requires wide { W ≤ 64 }
        requires small { Each (λ n. n < 64 * W) plan.now.leaves }
        requires choice_free { IsChoiceFree plan.now.process }
        requires gathers { (nodes : List Node) × Gathers plan.now (node.now ∷ nodes) self.old }
        ensures { MatchResult result
            (λ _. ReadsMark plan.now node.now self.old self.new)
            (TellsCircle plan.now.process (pairs_of plan.now.tokens)) }
    {
        match node {
            Node::Leaf => self.leaf(alloc, plan),
            Node::Open => self.open(alloc, plan),
            Node::Close => self.close(alloc, plan),
            _ => Ok(()),
        }
    }
}
