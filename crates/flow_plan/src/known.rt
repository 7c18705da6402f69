//! Which parts need not be read, since others are known.
ghost use Rattle.std.specs.Prelude.{◌≡◌, ◌<◌, ◌*◌, ◌⊎◌, IsTrue, false, None};
ghost use Rattle.flow_model.specs.Lists.{Each};
ghost use Rattle.flow_plan.specs.Known.{AreAside, IsAround, IsAside, IsKnown, IsWithin};
ghost use Rattle.flow_plan.specs.Parts.{IsPlaced, PartAllows};
ghost use Rattle.flow_plan.specs.Span.{at_span};

use crate::cut_sides::CutSides;
use crate::part_row::PartRow;
use crate::span::Span;
use leaf_rows::LeafSet;

/// Parts that need not be read: those that have all of the one span, and those within the other.
#[derive(Clone, Copy)]
pub(crate) struct Known {
    pub(crate) around: Option<Span>,
    pub(crate) within: Option<Span>,
}

/// The number of the first part that ends behind the place, found by halves. Parts come by their ends; no answer rests on that.
pub(crate) fn first_behind(spans: &[Span], place: usize) -> usize {
    let mut first = 0;
    let mut end = spans.len();
    while first < end {
        let middle = first + (end - first) / 2;
        if spans[middle].end <= place {
            first = middle + 1;
        } else {
            end = middle;
        }
    }
    first
}

/// Whether each of the leaves is another one than that, and done just where so.
fn are_aside<const W: usize>(leaves: &[u32], done: &LeafSet<W>, so: bool, leaf: u32) -> bool
    requires { Each (λ n. n < 64 * W) leaves.now }
    ensures { IsTrue result → Each (IsAside done.now so leaf) leaves.now }
{
    for other in leaves {
        if *other == leaf || done.has(*other) != so {
            return false;
        }
    }
    true
}

/// Whether the part there lacks that leaf, and all of its leaves are done or none is. A part with more leaves than its row has words is
/// not asked, since its row tells that sooner.
fn lies_aside<const W: usize>(span: Span, leaves: &[u32], done: &LeafSet<W>, leaf: u32) -> bool
    requires { Each (λ n. n < 64 * W) leaves.now }
    ensures { IsTrue result → AreAside done.now leaf (at_span span leaves.now) }
{
    let Span { first, end } = span;
    if end <= first || leaves.len() < end || W < end - first {
        return false;
    }
    are_aside(&leaves[first..end], done, done.has(leaves[first]), leaf)
}

impl Known {
    /// Whether the part there has all of the one span, or lies within the other.
    fn has(&self, span: Span) -> bool
        ensures { IsTrue result → IsAround self.now.around span ⊎ IsWithin self.now.within span }
    {
        if let Some(inner) = self.around {
            if inner.lies_in(span) {
                return true;
            }
        }
        match self.within {
            Some(outer) => span.lies_in(outer),
            None => false,
        }
    }

    /// Whether the part lets the leaf come next, where these are all the leaves of the plan. Its row is read where neither its place nor
    /// its leaves tell. Where it lacks the leaf, each part within it is known from then on.
    pub(crate) fn allows<const W: usize>(
        &mut self,
        span: Span,
        part: &PartRow<W>,
        leaves: &[u32],
        sides: &CutSides<W>,
        leaf: u32,
    ) -> bool
        requires small { leaf < 64 * W }
        requires within { Each (λ n. n < 64 * W) leaves.now }
        ensures yes { IsTrue result → span ≡ part.now.span → IsPlaced leaves.now part.now → IsKnown (λ row. PartAllows row sides.now leaf) leaves.now self.old →
            IsKnown (λ row. PartAllows row sides.now leaf) leaves.now self.new × PartAllows part.now sides.now leaf }
        ensures no { result ≡ false → ¬ (PartAllows part.now sides.now leaf) }
    {
        if self.has(span) {
            return true;
        }
        if !lies_aside(span, leaves, &sides.done, leaf) {
            if !part.allows(sides, leaf) {
                return false;
            }
            if part.has(leaf) {
                return true;
            }
        }
        self.within = Some(span);
        true
    }
}
