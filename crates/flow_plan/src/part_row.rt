ghost use Rattle.std.specs.Prelude.{◌≡◌, ◌<◌, ◌≤◌, ◌*◌, ◌↔◌, ◌⊎◌, ◌&&◌, if◌then◌else◌, ℕ, IsTrue, List, All, length};
ghost use Rattle.flow_model.specs.Lists.{◌∈◌};
ghost use Rattle.leaf_rows.specs.Leaves.{has_leaf};
ghost use Rattle.leaf_rows.specs.declared.leaf_set.LeafSet.{LeafSet};
ghost use Rattle.flow_plan.specs.Ahead.{IsInSome};
ghost use Rattle.flow_plan.specs.Parts.{IsPartFor, Reaches};

use crate::cut_sides::CutSides;
use crate::sets::{first_outside, set_of, union};
use crate::span::Span;
use leaf_rows::LeafSet;

/// The leaves of an isolated part, and the leaves outside it that are directly before one of them.
#[derive(Clone, Copy)]
pub(crate) struct PartRow<const W: usize> {
    /// The places of its leaves.
    pub(crate) span: Span,
    inside: LeafSet<W>,
    outside: LeafSet<W>,
}

/// The leaves of a span, and what is directly before some of them.
#[derive(Clone, Copy)]
pub(crate) struct Reach<const W: usize> {
    pub(crate) span: Span,
    inside: LeafSet<W>,
    before: LeafSet<W>,
}

/// For what leaves are kept.
#[derive(Clone, Copy)]
pub(crate) enum Use {
    /// To follow with the claimed ones in every order.
    Beside,
    /// To come before the claimed ones.
    First,
}

impl<const W: usize> Reach<W> {
    /// No leaf yet, at that place.
    pub(crate) fn at(place: usize) -> Reach<W>
        requires { W ≤ 64 }
        ensures span { (result.span.first ≡ place) × (result.span.end ≡ place) }
        ensures reaches { (ns : List ℕ) (rows : List (LeafSet W)) → Reaches ns rows result }
    {
        Reach {
            span: Span {
                first: place,
                end: place,
            },
            inside: LeafSet::new(),
            before: LeafSet::new(),
        }
    }

    /// What can be kept of it for that span: all where it lies within.
    fn within(self, span: Span) -> Reach<W>
        requires span { span.first ≤ span.end }
        requires own { self.span.first ≤ self.span.end }
        ensures within { (span.first ≤ result.span.first) × (result.span.first ≤ result.span.end) × (result.span.end ≤ span.end) }
        ensures reaches { (ns : List ℕ) (rows : List (LeafSet W)) → Reaches ns rows self.entry → Reaches ns rows result }
    {
        if span.first <= self.span.first && self.span.end <= span.end {
            return self;
        }
        Reach::at(span.first)
    }

    /// Adds leaves, whose rows are these.
    fn add(&mut self, leaves: &[u32], rows: &[LeafSet<W>])
        requires { All (λ n. n < 64 * W) leaves.now }
        ensures inside { (x : ℕ) → IsTrue (has_leaf self.new.inside x) ↔ (IsTrue (has_leaf self.old.inside x) ⊎ (x ∈ leaves.now)) }
        ensures before { (x : ℕ) → IsTrue (has_leaf self.new.before x) ↔ (IsTrue (has_leaf self.old.before x) ⊎ IsInSome rows.now x) }
    {
        self.inside.union_with(&set_of(leaves));
        self.before.union_with(&union(rows));
    }

    /// The reach of a span, by what the one before has of it: of parts one within another each adds its own leaves alone.
    pub(crate) fn of(self, span: Span, leaves: &[u32], rows: &[LeafSet<W>]) -> Reach<W>
        requires small { All (λ n. n < 64 * W) leaves.now }
        requires one_each { length rows.now ≡ length leaves.now }
        requires span { span.first ≤ span.end × span.end ≤ length leaves.now }
        requires own { self.span.first ≤ self.span.end }
        requires reaches { Reaches leaves.now rows.now self }
        ensures span { (result.span ≡ span) × (result.span.first ≤ result.span.end) }
        ensures reaches { Reaches leaves.now rows.now result }
    {
        let mut reach = self.within(span);
        let Span { first, end } = reach.span;
        reach.add(&leaves[span.first..first], &rows[span.first..first]);
        reach.add(&leaves[end..span.end], &rows[end..span.end]);
        reach.span = span;
        reach
    }

    /// The row of the part with these leaves.
    pub(crate) fn row(&self) -> PartRow<W>
        ensures { (ns : List ℕ) (rows : List (LeafSet W)) → Reaches ns rows self.now → IsPartFor ns rows self.now.span result }
    {
        let mut outside = self.before;
        outside.remove_all(&self.inside);
        PartRow {
            span: self.span,
            inside: self.inside,
            outside,
        }
    }
}

/// Of the leaves those inside where `inner`, and the others where `outer`.
fn keep<const W: usize>(
    mut leaves: LeafSet<W>,
    inside: &LeafSet<W>,
    inner: bool,
    outer: bool,
) -> LeafSet<W>
    ensures { (n : ℕ) → has_leaf result n ≡ (has_leaf leaves.entry n && (if has_leaf inside.now n then inner else outer)) }
{
    match (inner, outer) {
        (true, true) => {}
        (false, true) => leaves.remove_all(inside),
        (true, false) => {
            let mut others = leaves;
            others.remove_all(inside);
            leaves.remove_all(&others);
        }
        (false, false) => leaves = LeafSet::new(),
    }
    leaves
}

impl<const W: usize> PartRow<W> {
    ghost use Rattle.std.specs.Prelude.{IfNone, IfSome};
    ghost use Rattle.flow_plan.specs.Parts.{IsWaitedFor, PartAllows, Keeps, KeepsTogether, KeepsBeside, KeepsAfter};

    /// Whether the leaf is one of the part.
    pub(crate) fn has(&self, leaf: u32) -> bool
        requires { leaf < 64 * W }
        ensures { result ≡ has_leaf self.now.inside leaf }
    {
        self.inside.has(leaf)
    }

    /// Whether the part has the leaf, and is begun.
    pub(crate) fn is_entered(&self, sides: &CutSides<W>, leaf: u32) -> bool
        requires { leaf < 64 * W }
        ensures { IsTrue result → IsTrue (has_leaf self.now.inside leaf)
            × ((x : ℕ) × IsTrue (has_leaf self.now.inside x) × IsTrue (has_leaf sides.now.done x)) }
    {
        self.inside.has(leaf) && self.inside.meets(&sides.done)
    }

    /// Whether the part lets the leaf come next: it must be finished once it is begun, and what is directly before it must
    /// be settled before it is begun. There is no choice inside, so it is finished where all of it is done.
    pub(crate) fn allows(&self, sides: &CutSides<W>, leaf: u32) -> bool
        requires { leaf < 64 * W }
        ensures { IsTrue result ↔ PartAllows self.now sides.now leaf }
    {
        match (self.inside.meets(&sides.done), self.inside.has(leaf)) {
            (true, true) | (false, false) => true,
            (true, false) => self.inside.is_subset(&sides.done),
            (false, true) => self.outside.is_subset(&sides.settled),
        }
    }

    /// Whether the part has all of the leaves, or none of them.
    pub(crate) fn keeps_together(&self, leaves: &LeafSet<W>) -> bool
        ensures { IsTrue result ↔ KeepsTogether self.now (λ x. IsTrue (has_leaf leaves.now x)) }
    {
        !self.inside.meets(leaves) || leaves.is_subset(&self.inside)
    }

    /// Of the leaves those that the part lets come next.
    pub(crate) fn keep_allowed(&self, sides: &CutSides<W>, leaves: LeafSet<W>) -> LeafSet<W>
        ensures { (n : ℕ) → IsTrue (has_leaf result n) ↔ (IsTrue (has_leaf leaves.entry n) × PartAllows self.now sides.now n) }
    {
        if self.inside.meets(&sides.done) {
            keep(
                leaves,
                &self.inside,
                true,
                self.inside.is_subset(&sides.done),
            )
        } else {
            keep(
                leaves,
                &self.inside,
                self.outside.is_subset(&sides.settled),
                true,
            )
        }
    }

    /// Of the leaves those that the part keeps together with the claimed ones.
    fn keep_beside(&self, claims: &LeafSet<W>, leaves: LeafSet<W>) -> LeafSet<W>
        ensures { (n : ℕ) → IsTrue (has_leaf result n)
            ↔ (IsTrue (has_leaf leaves.entry n) × KeepsBeside self.now (λ x. IsTrue (has_leaf claims.now x)) n) }
    {
        let inner = claims.is_subset(&self.inside);
        let outer = !self.inside.meets(claims);
        keep(leaves, &self.inside, inner, outer)
    }

    /// Of the leaves those after which the part keeps the claimed ones together.
    fn keep_first(&self, claims: &LeafSet<W>, leaves: LeafSet<W>) -> LeafSet<W>
        ensures { (n : ℕ) → IsTrue (has_leaf result n)
            ↔ (IsTrue (has_leaf leaves.entry n) × KeepsAfter self.now (λ x. IsTrue (has_leaf claims.now x)) n) }
    {
        if claims.is_subset(&self.inside) {
            return leaves;
        }
        let outer = !self.inside.meets(claims);
        keep(leaves, &self.inside, false, outer)
    }

    /// Of the leaves those that the part keeps for that use, by the claimed ones.
    pub(crate) fn keep_for(&self, what: Use, claims: &LeafSet<W>, leaves: LeafSet<W>) -> LeafSet<W>
        ensures { (n : ℕ) → IsTrue (has_leaf result n)
            ↔ (IsTrue (has_leaf leaves.entry n) × Keeps what self.now (λ x. IsTrue (has_leaf claims.now x)) n) }
    {
        match what {
            Use::Beside => self.keep_beside(claims, leaves),
            Use::First => self.keep_first(claims, leaves),
        }
    }

    /// A leaf that the part waits for where it does not let that one come next.
    pub(crate) fn missing(&self, sides: &CutSides<W>, leaf: u32) -> Option<u32>
        requires { leaf < 64 * W }
        ensures some { IfSome result (IsWaitedFor self.now sides.now leaf) }
        ensures small { IfSome result (λ first. first < 64 * W) }
        ensures none { IfNone result (PartAllows self.now sides.now leaf) }
    {
        if self.inside.has(leaf) {
            return first_outside(&self.outside, &sides.settled);
        }
        first_outside(&self.inside, &sides.done)
    }
}
