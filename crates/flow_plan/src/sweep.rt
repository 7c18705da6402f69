ghost use Rattle.std.specs.Prelude.{◌≡◌, ◌<◌, ◌≤◌, ◌*◌, ◌∷◌, ◌||◌, ℕ, Bool, List, [], None, Some, false, slice_get, IsTrue, IfNone, IfOk, IfSome, OnOk};
ghost use Rattle.flow_goal.specs.declared.node.Node.TheVariants.{Leaf, Fork, Split, Join};
ghost use Rattle.flow_model.specs.Lists.{Each};
ghost use Rattle.leaf_rows.specs.Leaves.{has_leaf};
ghost use Rattle.leaf_rows.specs.declared.leaf_set.LeafSet.{LeafSet};
ghost use Rattle.flow_plan.specs.declared.sweep.Ahead.TheVariants.{Behind, Joined};
ghost use Rattle.flow_plan.specs.RowMarks.{IsOneMore, Passes, StandsFor};

use flow_goal::Node;
use leaf_rows::LeafSet;
use std::alloc::{AllocError, Global};

/// What is ahead of a goal, with no set of its own, so that a leaf costs one copy, and a goal with no leaf none.
#[derive(Clone, Copy)]
pub(crate) enum Ahead {
    /// The leaf at that place, and what its row has.
    Behind(usize),
    /// The set of that number among those that are kept.
    Joined(usize),
}

impl Ahead {
    /// Whether the two are the same, and so stand for the same.
    fn is_same(self, other: Ahead) -> bool
        ensures { IsTrue result → self ≡ other }
    {
        match (self, other) {
            (Ahead::Behind(one), Ahead::Behind(two)) => one == two,
            (Ahead::Joined(one), Ahead::Joined(two)) => one == two,
            _ => false,
        }
    }
}

/// Two goals beside one another, or sides of a choice, that are being read.
#[derive(Clone, Copy)]
pub(crate) struct Forked {
    /// What is ahead of both.
    pub(crate) both: Ahead,
    /// What is behind the first, once it is read.
    pub(crate) first: Ahead,
}

/// The rows of the first leaves of a goal that is read from left to right.
#[derive(Drop)]
pub(crate) struct Sweep<const W: usize> {
    /// The leaves before the next one.
    pub(crate) ahead: Ahead,
    /// Inner ones last.
    pub(crate) forks: Vec<Forked>,
    /// The empty set, and what is ahead of what follows two goals with leaves.
    pub(crate) joined: Vec<LeafSet<W>>,
    pub(crate) rows: Vec<LeafSet<W>>,
}

/// The leaf at that place.
fn leaf_at<const W: usize>(leaves: &[u32], place: usize) -> Option<u32>
    requires { Each (λ n. n < 64 * W) leaves.now }
    ensures leaf { result ≡ slice_get leaves.now place }
    ensures small { IfSome result (λ leaf. leaf < 64 * W) }
{
    leaves.get(place).copied()
}

/// The set at that place.
fn set_at<const W: usize>(sets: &[LeafSet<W>], place: usize) -> Option<&LeafSet<W>>
    ensures none { IfNone result (slice_get sets.now place ≡ None) }
    ensures some { IfSome result (λ set. slice_get sets.now place ≡ Some set.now) }
{
    sets.get(place)
}

/// Makes one row more, which has the leaf at that place and what its row has. It is one copy.
fn push_behind<const W: usize>(
    rows: &mut Vec<LeafSet<W>>,
    leaves: &[u32],
    place: usize,
) -> Result<(), AllocError>
    requires wide { W ≤ 64 }
    requires small { Each (λ n. n < 64 * W) leaves.now }
    ensures { OnOk result ((joined : List (LeafSet W)) (test : ℕ → Bool) →
        StandsFor leaves.now rows.old.items joined (Behind place) test → IsOneMore test rows.old.items rows.new.items) }
{
    let (Some(row), Some(leaf)) = (set_at(rows, place), leaf_at::<W>(leaves, place)) else {
        return Ok(());
    };
    let row = *row;
    let last = rows.len();
    rows.push(row)?;
    rows[last].insert(leaf);
    Ok(())
}

/// Makes one row more, which is the set of that number.
fn push_joined<const W: usize>(
    rows: &mut Vec<LeafSet<W>>,
    joined: &[LeafSet<W>],
    number: usize,
) -> Result<(), AllocError>
    ensures { OnOk result ((leaves : List ℕ) (test : ℕ → Bool) →
        StandsFor leaves rows.old.items joined.now (Joined number) test → IsOneMore test rows.old.items rows.new.items) }
{
    let Some(set) = set_at(joined, number) else {
        return Ok(());
    };
    rows.push(*set)?;
    Ok(())
}

impl<const W: usize> Sweep<W> {
    /// Nothing is read yet.
    pub(crate) fn new(alloc: Global, leaves: usize) -> Result<Sweep<W>, AllocError>
        requires { W ≤ 64 }
        ensures ahead { IfOk result (λ new. new.ahead ≡ Joined 0) }
        ensures forks { IfOk result (λ new. new.forks.items ≡ []) }
        ensures joined { IfOk result (λ new. (empty : LeafSet W) × ((x : ℕ) → has_leaf empty x ≡ false) × (new.joined.items ≡ empty ∷ [])) }
        ensures rows { IfOk result (λ new. new.rows.items ≡ []) }
    {
        let mut joined = Vec::new(alloc);
        joined.push(LeafSet::new())?;
        Ok(Sweep {
            ahead: Ahead::Joined(0),
            forks: Vec::new(alloc),
            joined,
            rows: Vec::with_capacity(alloc, leaves)?,
        })
    }

    /// Puts into the set what this stands for.
    fn put_in(&self, ahead: Ahead, leaves: &[u32], set: &mut LeafSet<W>)
        requires wide { W ≤ 64 }
        requires small { Each (λ n. n < 64 * W) leaves.now }
        ensures { (test : ℕ → Bool) → StandsFor leaves.now self.now.rows.items self.now.joined.items ahead test →
            (x : ℕ) → has_leaf set.new x ≡ (has_leaf set.old x || test x) }
    {
        match ahead {
            Ahead::Behind(place) => {
                if let (Some(row), Some(leaf)) = (
                    set_at(&self.rows, place),
                    leaf_at::<W>(leaves, place),
                ) {
                    set.union_with(row);
                    set.insert(leaf);
                }
            }
            Ahead::Joined(number) => {
                if let Some(other) = set_at(&self.joined, number) {
                    set.union_with(other);
                }
            }
        }
    }

    /// Reads a leaf: what is ahead is its row.
    fn pass_leaf(&mut self, leaves: &[u32]) -> Result<(), AllocError>
        requires wide { W ≤ 64 }
        requires small { Each (λ n. n < 64 * W) leaves.now }
        ensures { OnOk result (Passes Leaf leaves.now self.old self.new) }
    {
        let place = self.rows.len();
        match self.ahead {
            Ahead::Behind(last) => push_behind(&mut self.rows, leaves, last)?,
            Ahead::Joined(number) => push_joined(&mut self.rows, &self.joined, number)?,
        }
        self.ahead = Ahead::Behind(place);
        Ok(())
    }

    fn fork(&mut self, leaves: &[u32]) -> Result<(), AllocError>
        ensures { OnOk result (Passes Fork leaves.now self.old self.new) }
    {
        let both = self.ahead;
        self.forks.push(Forked { both, first: both })?;
        Ok(())
    }

    /// Goes back to what is ahead of both.
    fn split(&mut self, leaves: &[u32]) -> Result<(), AllocError>
        ensures { OnOk result (Passes Split leaves.now self.old self.new) }
    {
        let Some(fork) = self.forks.pop() else {
            return Ok(());
        };
        self.forks.push(Forked {
            both: fork.both,
            first: self.ahead,
        })?;
        self.ahead = fork.both;
        Ok(())
    }

    /// What is ahead of what follows. Where one of the two goals has no leaf, it is what is behind the other.
    fn join(&mut self, leaves: &[u32]) -> Result<(), AllocError>
        requires wide { W ≤ 64 }
        requires small { Each (λ n. n < 64 * W) leaves.now }
        ensures { OnOk result (Passes Join leaves.now self.old self.new) }
    {
        let Some(fork) = self.forks.pop() else {
            return Ok(());
        };
        if self.ahead.is_same(fork.both) {
            self.ahead = fork.first;
            return Ok(());
        }
        if fork.first.is_same(fork.both) {
            return Ok(());
        }
        let mut all = LeafSet::new();
        self.put_in(self.ahead, leaves, &mut all);
        self.put_in(fork.first, leaves, &mut all);
        self.ahead = Ahead::Joined(self.joined.len());
        self.joined.push(all)?;
        Ok(())
    }

    /// Reads one mark.
    pub(crate) fn pass(&mut self, node: &Node, leaves: &[u32]) -> Result<(), AllocError>
        requires wide { W ≤ 64 }
        requires small { Each (λ n. n < 64 * W) leaves.now }
        ensures { OnOk result (Passes node.now leaves.now self.old self.new) }
    {
        match node {
            Node::Nop | Node::Serial | Node::Open | Node::Close => Ok(()),
            Node::Leaf => self.pass_leaf(leaves),
            Node::Fork | Node::Choose => self.fork(leaves),
            Node::Split | Node::Or => self.split(leaves),
            Node::Join | Node::Chosen => self.join(leaves),
        }
    }
}
