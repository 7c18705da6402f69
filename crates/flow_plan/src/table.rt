//! The rows of a plan, as wide as its leaves ask for.
ghost use Rattle.std.specs.Prelude.{◌≡◌, ◌<◌, ◌≤◌, ◌*◌, ◌↔◌, ℕ, Bool, List, IsTrue, IfNone, IfOk, IfSome};
ghost use Rattle.std.specs.List.Sorted.{IsStrictlyIncreasing};
ghost use Rattle.flow_model.specs.Lists.{◌∈◌, Each};
ghost use Rattle.flow_model.specs.Process;
ghost use Rattle.flow_model.specs.Ready.{DirectlyBefore};
ghost use Rattle.flow_model.specs.FoldedReady.{IsFinished};
ghost use Rattle.flow_fold_laws.specs.Unfolding.{IsFoldedOrdered};
ghost use Rattle.leaf_rows.specs.Leaves.{has_leaf};
ghost use Rattle.flow_plan.specs.CutSides.{IsFree, TellIn};
ghost use Rattle.flow_plan.specs.Fields.{AreKept, Fills, IsTableOf};
ghost use Rattle.flow_plan.specs.Orders.{IsUnblocked, MayComeNext};
ghost use Rattle.flow_plan.specs.Known.{AreLaidOut, AreSpansOf, IsKnown};
ghost use Rattle.flow_plan.specs.Parts.{IsPlaced, KeepsTogether, PartAllows};
ghost use Rattle.flow_plan.specs.Planned.{Planned, pairs_of, planned};

use crate::cut_sides::CutSides;
use crate::known::{Known, first_behind};
use crate::part_row::PartRow;
use crate::parts::part_rows;
use crate::places::place_of;
use crate::rows::before_rows;
use crate::sets::{has_one_at_most, set_of};
use crate::span::Span;
use crate::token::OrderToken;
use flow_goal::Choiceless;
use flow_model::MOST_LEAVES;
use leaf_rows::{LEAF_WORDS, LeafSet};
use std::alloc::{AllocError, Global};

/// The words of rows in a plan of few leaves.
pub const NARROW_WORDS: usize = 2;

/// The words of rows in a plan of more leaves.
pub const MIDDLE_WORDS: usize = 16;

/// The words of rows in any other plan.
pub(crate) const WIDE_WORDS: usize = 64;

/// So few parts are looked at one by one.
const FEW_PARTS: usize = 8;

const _: () = prove!(WIDE_WORDS == LEAF_WORDS);

const _: () = prove!(MOST_LEAVES as usize == 64 * LEAF_WORDS);

/// Rows of one width.
#[derive(Drop)]
pub(crate) struct Table<const W: usize> {
    /// The leaves of the plan.
    pub(crate) all: LeafSet<W>,
    /// For each leaf, the leaves directly before it.
    pub(crate) before: Vec<LeafSet<W>>,
    /// Inner parts first.
    pub(crate) parts: Vec<PartRow<W>>,
    /// Where each part stands, once more: most parts are passed over by that alone, and a part is large.
    pub(crate) spans: Vec<Span>,
}

/// Rows as wide as the last leaf asks for. A further width is one more variant here, a line in `by_width`, a line in
/// `AreKept`, and a branch in `new`.
#[derive(Drop)]
pub(crate) enum Rows {
    Narrow(Table<NARROW_WORDS>),
    Middle(Table<MIDDLE_WORDS>),
    Wide(Table<WIDE_WORDS>),
}

/// What the table of the rows answers, of whatever width it is.
macro_rules! by_width {
    ($rows:expr, $table:ident => $answer:expr) => {
        match $rows {
            Rows::Narrow($table) => $answer,
            Rows::Middle($table) => $answer,
            Rows::Wide($table) => $answer,
        }
    };
}

pub(crate) use by_width;

/// Whether each of the leaves is below the number.
fn all_below(leaves: &[u32], bound: u32) -> bool
    requires { IsStrictlyIncreasing leaves.now }
    ensures { IsTrue result → Each (λ n. n < bound) leaves.now }
{
    match leaves.last() {
        Some(last) => *last < bound,
        None => true,
    }
}

impl Rows {
    /// The rows of the goal and the tokens.
    pub(crate) fn new(
        alloc: Global,
        goal: &Choiceless,
        tokens: &[OrderToken],
    ) -> Result<Rows, AllocError>
        requires small { Each (λ n. n < MOST_LEAVES) goal.now.leaves }
        requires ordered { IsFoldedOrdered goal.now.process (pairs_of tokens.now) }
        ensures { IfOk result (λ rows. AreKept (planned goal.now tokens.now) rows) }
    {
        if all_below(goal.leaves(), 64 * NARROW_WORDS as u32) {
            return Ok(Rows::Narrow(Table::new(alloc, goal, tokens)?));
        }
        if all_below(goal.leaves(), 64 * MIDDLE_WORDS as u32) {
            return Ok(Rows::Middle(Table::new(alloc, goal, tokens)?));
        }
        Ok(Rows::Wide(Table::new(alloc, goal, tokens)?))
    }
}

/// Whether the leaf is neither done nor closed off, and all of its row is settled.
pub(crate) fn frees<const W: usize>(sides: &CutSides<W>, leaf: u32, row: &LeafSet<W>) -> bool
    requires { leaf < 64 * W }
    ensures { IsTrue result ↔ IsFree (λ x _. IsTrue (has_leaf row.now x)) sides.now leaf }
{
    !sides.rule_out(leaf) && row.is_subset(&sides.settled)
}

/// The spans of the parts.
fn spans_of<const W: usize>(alloc: Global, parts: &[PartRow<W>]) -> Result<Vec<Span>, AllocError>
    ensures { IfOk result (λ spans. AreSpansOf spans.items parts.now) }
{
    let mut spans = Vec::with_capacity(alloc, parts.len())?;
    for part in parts {
        spans.push(part.span)?;
    }
    Ok(spans)
}

/// Whether each part has all of the leaves, or none of them.
pub(crate) fn parts_keep_together<const W: usize>(parts: &[PartRow<W>], leaves: &LeafSet<W>) -> bool
    ensures { IsTrue result
        ↔ Each (λ row. KeepsTogether row (λ x. IsTrue (has_leaf leaves.now x))) parts.now }
{
    if has_one_at_most(leaves) {
        return true;
    }
    for part in parts {
        if !part.keeps_together(leaves) {
            return false;
        }
    }
    true
}

impl<const W: usize> Table<W> {
    /// The rows of the goal and the tokens.
    #[tactic(auto, using(crate::proofs::RowLemmas::rows_length))]
    fn new(alloc: Global, goal: &Choiceless, tokens: &[OrderToken]) -> Result<Table<W>, AllocError>
        requires wide { W ≤ 64 }
        requires within { Each (λ n. n < 64 * W) goal.now.leaves }
        requires ordered { IsFoldedOrdered goal.now.process (pairs_of tokens.now) }
        ensures { IfOk result (λ table. IsTableOf (planned goal.now tokens.now) table) }
    {
        let before = before_rows(alloc, goal, tokens)?;
        let parts = part_rows(alloc, goal, &before)?;
        let spans = spans_of(alloc, &parts)?;
        Ok(Table {
            all: set_of(goal.leaves()),
            before,
            parts,
            spans,
        })
    }

    /// The row of the leaf, where these are the leaves.
    pub(crate) fn row_of(&self, leaves: &[u32], leaf: u32) -> Option<&LeafSet<W>>
        requires { Fills leaves.now self.now.before.items }
        ensures small { IfSome result (λ _. leaf < 64 * W) }
        ensures leaf { IfSome result (λ _. leaf ∈ leaves.now) }
        ensures row { IfSome result (λ row. (p : Planned) → IsTableOf p self.now → p.leaves ≡ leaves.now → (x : ℕ) →
            IsTrue (has_leaf row.now x) ↔ DirectlyBefore p.process (pairs_of p.tokens) x leaf) }
        ensures missing { IfNone result (¬ (leaf ∈ leaves.now)) }
    {
        match place_of(leaves, leaf) {
            Some(place) => Some(&self.before[place]),
            None => None,
        }
    }

    /// The leaves directly before that leaf.
    pub(crate) fn all_before(&self, leaves: &[u32], leaf: u32) -> LeafSet<W>
        requires { Fills leaves.now self.now.before.items }
        ensures { (p : Planned) → IsTableOf p self.now → p.leaves ≡ leaves.now → (x : ℕ) →
            IsTrue (has_leaf result x) ↔ DirectlyBefore p.process (pairs_of p.tokens) x leaf }
    {
        match self.row_of(leaves, leaf) {
            Some(row) => *row,
            None => LeafSet::new(),
        }
    }

    /// Whether the leaf is neither done nor closed off, and all that is directly before it is settled.
    fn is_unblocked(&self, leaves: &[u32], sides: &CutSides<W>, leaf: u32) -> bool
        requires { Fills leaves.now self.now.before.items }
        ensures small { IsTrue result → leaf < 64 * W }
        ensures free { (p : Planned) → IsTableOf p self.now → p.leaves ≡ leaves.now → (done : ℕ → Bool) →
            TellIn p (λ x. IsTrue (done x)) sides.now → IsTrue result ↔ IsUnblocked p (λ x. IsTrue (done x)) leaf }
    {
        match self.row_of(leaves, leaf) {
            Some(row) => frees(sides, leaf, row),
            None => false,
        }
    }

    /// Whether the leaf may come next after the done ones.
    pub(crate) fn ready(&self, leaves: &[u32], sides: &CutSides<W>, leaf: u32) -> bool
        requires { Fills leaves.now self.now.before.items }
        ensures { (p : Planned) → IsTableOf p self.now → p.leaves ≡ leaves.now → (done : ℕ → Bool) →
            TellIn p (λ x. IsTrue (done x)) sides.now → IsTrue result ↔ MayComeNext p (λ x. IsTrue (done x)) leaf }
    {
        self.is_unblocked(leaves, sides, leaf) && self.parts_allow(leaves, sides, leaf)
    }

    /// Whether each part lets the leaf come next.
    fn parts_allow(&self, leaves: &[u32], sides: &CutSides<W>, leaf: u32) -> bool
        requires small { leaf < 64 * W }
        requires filled { Fills leaves.now self.now.before.items }
        ensures yes { IsTrue result → AreLaidOut leaves.now self.now.spans.items self.now.parts.items → Each (λ row. PartAllows row sides.now leaf) self.now.parts.items }
        ensures no { Each (λ row. PartAllows row sides.now leaf) self.now.parts.items → IsTrue result }
    {
        match self.refusing(leaves, sides, leaf) {
            Some(_) => false,
            None => true,
        }
    }

    /// What is known before a part is looked at: where the innermost part that has the leaf is begun, each part around it lets the
    /// leaf come next.
    fn known_for(&self, leaves: &[u32], sides: &CutSides<W>, leaf: u32) -> Known
        requires small { leaf < 64 * W }
        requires rising { IsStrictlyIncreasing leaves.now }
        ensures { (ns : List ℕ) → Each (IsPlaced ns) self.now.parts.items → IsKnown (λ row. PartAllows row sides.now leaf) ns result }
    {
        let nothing = Known {
            around: None,
            within: None,
        };
        if self.parts.len() < FEW_PARTS {
            return nothing;
        }
        let Some(place) = place_of(leaves, leaf) else {
            return nothing;
        };
        let Some(part) = self.parts.get(first_behind(&self.spans, place)) else {
            return nothing;
        };
        if !part.is_entered(sides, leaf) {
            return nothing;
        }
        Known {
            around: Some(part.span),
            within: None,
        }
    }

    /// A part that does not let the leaf come next, where there is one. Outer parts come first.
    pub(crate) fn refusing(
        &self,
        leaves: &[u32],
        sides: &CutSides<W>,
        leaf: u32,
    ) -> Option<&PartRow<W>>
        requires small { leaf < 64 * W }
        requires filled { Fills leaves.now self.now.before.items }
        ensures some { IfSome result (λ part. part.now ∈ self.now.parts.items × ¬ (PartAllows part.now sides.now leaf)) }
        ensures none { IfNone result (AreLaidOut leaves.now self.now.spans.items self.now.parts.items → Each (λ row. PartAllows row sides.now leaf) self.now.parts.items) }
    {
        let mut known = self.known_for(leaves, sides, leaf);
        let mut rest = self.parts.len().min(self.spans.len());
        while 0 < rest {
            rest -= 1;
            let part = &self.parts[rest];
            if !known.allows(self.spans[rest], part, leaves, sides, leaf) {
                return Some(part);
            }
        }
        None
    }

    /// Whether each leaf of the plan is settled.
    pub(crate) fn complete(&self, sides: &CutSides<W>) -> bool
        ensures { (p : Planned) → IsTableOf p self.now → (done : ℕ → Bool) →
            TellIn p (λ x. IsTrue (done x)) sides.now → IsTrue result ↔ IsFinished p.process (λ x. IsTrue (done x)) }
    {
        self.all.is_subset(&sides.settled)
    }

    /// Whether some leaf of the plan is in the set.
    pub(crate) fn has_some(&self, set: &LeafSet<W>) -> bool
        ensures { (p : Planned) → IsTableOf p self.now →
            IsTrue result ↔ ((n : ℕ) × (n ∈ Process.leaves p.process) × IsTrue (has_leaf set.now n)) }
    {
        self.all.meets(set)
    }
}
