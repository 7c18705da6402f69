//! What may come next in a plan, for all its leaves at once.
ghost use Rattle.std.specs.Prelude.{◌≡◌, ◌<◌, ◌≤◌, ◌*◌, ◌↔◌, ◌⊎◌, ◌&&◌, ◌||◌, nat_lt, not, ℕ, Bool, List, All, IsTrue, IfNone, IfSome, [], ◌∷◌, length};
ghost use Rattle.flow_model.specs.Lists.{◌∈◌, Each, AreDistinct};
ghost use Rattle.flow_model.specs.Process.{Process, leaves};
ghost use Rattle.flow_model.specs.Ready.{DirectlyBefore, DoneOr};
ghost use Rattle.leaf_rows.specs.Leaves.{has_leaf};
ghost use Rattle.flow_plan.specs.CutSides.{IsFree, TellIn};
ghost use Rattle.flow_plan.specs.Fields.{Fills, IsTableOf};
ghost use Rattle.flow_plan.specs.FoldRows.{AreFoldRows};
ghost use Rattle.flow_plan.specs.Orders.{AreApart, IsSettledWith, MayComeNext, MayFollowInEveryOrder, TellOf};
ghost use Rattle.flow_plan.specs.Known.{AreLaidOut};
ghost use Rattle.flow_plan.specs.Planned.{Planned};
ghost use Rattle.flow_plan.specs.Parts.{IsWaitedFor, PartAllows, Keeps};
ghost use Rattle.flow_plan.specs.Sided.{IsDoneIn, StandsWith};
ghost use Rattle.flow_plan.specs.Rows.{AreRowsOf, IsRowOf};

use crate::cut_sides::CutSides;
use crate::fold_row::FoldRow;
use crate::part_row::{PartRow, Use};
use crate::passed::{Kept, Passed};
use crate::plan::Plan;
use crate::sets::{first_outside, with};
use crate::sides::Sides;
use crate::span::Span;
use crate::table::{Rows, Table, by_width, frees};
use flow_model::MOST_LEAVES;
use leaf_rows::{LEAF_WORDS, LeafSet};

/// The leaves that are neither done nor closed off, and whose row is settled.
fn free_row<const W: usize>(
    leaves: &[u32],
    before: &[LeafSet<W>],
    sides: &CutSides<W>,
) -> LeafSet<W>
    requires one_each { length before.now ≡ length leaves.now }
    requires wide { W ≤ 64 }
    requires small { Each (λ n. n < 64 * W) leaves.now }
    ensures { (q : Process) (pairs : List (ℕ × ℕ)) → AreRowsOf (DirectlyBefore q pairs) leaves.now before.now →
        IsRowOf (λ n. n ∈ leaves.now × IsFree (DirectlyBefore q pairs) sides.now n) result }
{
    let mut row = LeafSet::new();
    for (place, leaf) in leaves.iter().enumerate() {
        if frees(sides, *leaf, &before[place]) {
            row.insert(*leaf);
        }
    }
    row
}

/// Of the leaves those that each part lets come next, where these are all the leaves of the plan. Most parts are passed over by their
/// spans alone.
fn keep_allowed<const W: usize>(
    all: &[u32],
    spans: &[Span],
    parts: &[PartRow<W>],
    sides: &CutSides<W>,
    leaves: LeafSet<W>,
) -> LeafSet<W>
    requires { All (λ n. n < 64 * W) all.now }
    ensures { AreLaidOut all.now spans.now parts.now → (n : ℕ) → IsTrue (has_leaf result n) ↔ (IsTrue (has_leaf leaves.entry n)
        × Each (λ row. PartAllows row sides.now n) parts.now) }
{
    let mut kept = Kept {
        leaves,
        within: None,
    };
    let mut passed = Passed::new();
    for place in 0..parts.len().min(spans.len()) {
        let span = spans[place];
        passed = passed.up_to(span.end, all, sides, &leaves);
        kept.pass(span, &parts[place], &passed, sides);
    }
    kept.leaves
}

/// Of the leaves those that each part keeps for that use, by the claimed ones.
fn keep_for<const W: usize>(
    parts: &[PartRow<W>],
    what: Use,
    claims: &LeafSet<W>,
    mut leaves: LeafSet<W>,
) -> LeafSet<W>
    ensures { (n : ℕ) → IsTrue (has_leaf result n) ↔ (IsTrue (has_leaf leaves.entry n)
        × Each (λ row. Keeps what row (λ x. IsTrue (has_leaf claims.now x)) n) parts.now) }
{
    if is_empty(claims) {
        return leaves;
    }
    for part in parts {
        leaves = part.keep_for(what, claims, leaves);
    }
    leaves
}

/// The leaves that come next, and are neither claimed nor found nor closed off by a claimed one.
fn rest_of<const W: usize>(
    next: &LeafSet<W>,
    claims: &LeafSet<W>,
    apart: &LeafSet<W>,
    found: &LeafSet<W>,
) -> LeafSet<W>
    ensures { (n : ℕ) → has_leaf result n ≡ (not (has_leaf found.now n) && (not (has_leaf apart.now n) && (not (has_leaf claims.now n) && has_leaf next.now n))) }
{
    let mut rest = *next;
    rest.remove_all(claims);
    rest.remove_all(apart);
    rest.remove_all(found);
    rest
}

/// What is in one of the two.
fn both<const W: usize>(one: &LeafSet<W>, other: &LeafSet<W>) -> LeafSet<W>
    ensures { (n : ℕ) → IsTrue (has_leaf result n) ↔ (IsTrue (has_leaf one.now n) ⊎ IsTrue (has_leaf other.now n)) }
{
    let mut all = *one;
    all.union_with(other);
    all
}

/// Puts each member of a set of another width in, as far as there is room.
fn put_in<const V: usize, const W: usize>(found: &mut LeafSet<V>, more: &LeafSet<W>)
    ensures { (n : ℕ) → has_leaf found.new n ≡ (has_leaf found.old n || (nat_lt n (64 * V) && has_leaf more.now n)) }
{
    if W <= V {
        found.union_narrow(more);
    } else {
        found.union_with(&more.resized());
    }
}

fn is_empty<const W: usize>(set: &LeafSet<W>) -> bool
    ensures { IsTrue result ↔ ((n : ℕ) → ¬ (IsTrue (has_leaf set.now n))) }
{
    set.first().is_none()
}

/// The first leaf of the list that the set lacks.
fn first_lacking<const V: usize>(list: &[u32], set: &LeafSet<V>) -> Option<u32>
    requires { Each (λ n. n < 64 * V) list.now }
    ensures none { IfNone result (Each (λ n. IsTrue (has_leaf set.now n)) list.now) }
    ensures some { IfSome result (λ n. n ∈ list.now × ¬ (IsTrue (has_leaf set.now n))) }
{
    for leaf in list {
        if !set.has(*leaf) {
            return Some(*leaf);
        }
    }
    None
}

/// The leaf, and all that stand in a choice with it.
fn with_choices(folds: &[FoldRow], leaf: u32) -> LeafSet<LEAF_WORDS>
    requires { leaf < MOST_LEAVES }
    ensures { IsRowOf (StandsWith folds.now leaf) result }
{
    let mut set = with(&LeafSet::new(), leaf);
    for fold in folds {
        fold.put_in_with(leaf, &mut set);
    }
    set
}

impl<const W: usize> Table<W> {
    /// The leaves that may come next after the done ones.
    fn next_row(&self, leaves: &[u32], sides: &CutSides<W>) -> LeafSet<W>
        requires { Fills leaves.now self.now.before.items }
        ensures { (p : Planned) → IsTableOf p self.now → p.leaves ≡ leaves.now → (done : ℕ → Bool) →
            TellIn p (λ x. IsTrue (done x)) sides.now → IsRowOf (MayComeNext p (λ x. IsTrue (done x))) result }
    {
        let free = free_row(leaves, &self.before, sides);
        keep_allowed(leaves, &self.spans, &self.parts, sides, free)
    }

    /// A leaf for which that one waits, where it may not come next yet: no other settles it than one after which that one may.
    fn first_missing(&self, leaves: &[u32], sides: &CutSides<W>, leaf: u32) -> Option<u32>
        requires { Fills leaves.now self.now.before.items }
        ensures small { IfSome result (λ first. first < 64 * W) }
        ensures settled { (p : Planned) → IsTableOf p self.now → p.leaves ≡ leaves.now → (done : ℕ → Bool) →
            TellIn p (λ x. IsTrue (done x)) sides.now → (first : ℕ) → ¬ (MayComeNext p (λ x. IsTrue (done x)) leaf) →
            MayComeNext p (λ x. IsTrue (done x)) first → MayComeNext p (DoneOr (λ x. IsTrue (done x)) (first ∷ [])) leaf →
            IsSettledWith p first result }
    {
        let Some(row) = self.row_of(leaves, leaf) else {
            return None;
        };
        if sides.rule_out(leaf) {
            return None;
        }
        match first_outside(row, &sides.settled) {
            Some(first) => Some(first),
            None => self.missing(leaves, sides, leaf),
        }
    }

    /// A leaf for which some part waits that does not let that one come next.
    fn missing(&self, leaves: &[u32], sides: &CutSides<W>, leaf: u32) -> Option<u32>
        requires small { leaf < 64 * W }
        requires filled { Fills leaves.now self.now.before.items }
        ensures some { IfSome result (λ first. (row : PartRow W) × row ∈ self.now.parts.items × ¬ (PartAllows row sides.now leaf)
            × IsWaitedFor row sides.now leaf first) }
        ensures small { IfSome result (λ first. first < 64 * W) }
        ensures none { IfNone result (AreLaidOut leaves.now self.now.spans.items self.now.parts.items → Each (λ row. PartAllows row sides.now leaf) self.now.parts.items) }
    {
        match self.refusing(leaves, sides, leaf) {
            Some(part) => part.missing(sides, leaf),
            None => None,
        }
    }

    /// What is found, and the leaves that may follow with the claimed ones in every order, where it is known which leaves
    /// may come next, and which the claimed ones close off.
    fn beside(
        &self,
        next: &LeafSet<W>,
        claims: &LeafSet<W>,
        apart: &LeafSet<W>,
        found: &LeafSet<W>,
    ) -> LeafSet<W>
        ensures { (p : Planned) → IsTableOf p self.now → (done : ℕ → Bool) (list : List ℕ) → IsRowOf (MayComeNext p (λ x. IsTrue (done x))) next.now →
            IsRowOf (λ x. x ∈ list) claims.now → AreDistinct list → AreApart p list apart.now → (n : ℕ) → IsTrue (has_leaf result n)
            ↔ (IsTrue (has_leaf found.now n) ⊎ MayFollowInEveryOrder p (λ x. IsTrue (done x)) (n ∷ list)) }
    {
        let rest = rest_of(next, claims, apart, found);
        if is_empty(&rest) || !claims.is_subset(next) || claims.meets(apart) {
            return *found;
        }
        both(found, &keep_for(&self.parts, Use::Beside, claims, rest))
    }

    /// The same, asked by sets of any width, and added to what is found.
    fn add_beside<const V: usize>(
        &self,
        next: &LeafSet<V>,
        claims: &LeafSet<V>,
        apart: &LeafSet<V>,
        found: &mut LeafSet<V>,
    )
        ensures { (p : Planned) → IsTableOf p self.now → (done : ℕ → Bool) (list : List ℕ) → IsRowOf (MayComeNext p (λ x. IsTrue (done x))) next.now →
            IsRowOf (λ x. x ∈ list) claims.now → AreDistinct list → AreApart p list apart.now → (n : ℕ) → IsTrue (has_leaf found.new n)
            ↔ (IsTrue (has_leaf found.old n) ⊎ MayFollowInEveryOrder p (λ x. IsTrue (done x)) (n ∷ list)) }
    {
        // of a claim that is no leaf of the plan a cut would know nothing
        if !claims.is_within::<W>() {
            return;
        }
        let here = next.resized();
        let mine = claims.resized();
        let closed = apart.resized();
        let so_far = found.resized();
        let more = self.beside(&here, &mine, &closed, &so_far);
        put_in(found, &more);
    }

    /// What is found, and the leaves that may come next, and after which the claimed ones may follow in every order, where
    /// each of these may come next.
    fn before_all(
        &self,
        next: &LeafSet<W>,
        claims: &LeafSet<W>,
        apart: &LeafSet<W>,
        found: &LeafSet<W>,
    ) -> LeafSet<W>
        requires { (k : ℕ) → IsTrue (has_leaf claims.now k) → IsTrue (has_leaf next.now k) }
        ensures { (p : Planned) → IsTableOf p self.now → (done : ℕ → Bool) (list : List ℕ) → IsRowOf (MayComeNext p (λ x. IsTrue (done x))) next.now →
            IsRowOf (λ x. x ∈ list) claims.now → AreDistinct list → AreApart p list apart.now → (n : ℕ) → IsTrue (has_leaf result n)
            ↔ (IsTrue (has_leaf found.now n) ⊎ (MayComeNext p (λ x. IsTrue (done x)) n
            × MayFollowInEveryOrder p (DoneOr (λ x. IsTrue (done x)) (n ∷ [])) list)) }
    {
        let rest = rest_of(next, claims, apart, found);
        if is_empty(&rest) || claims.meets(apart) {
            return *found;
        }
        both(found, &keep_for(&self.parts, Use::First, claims, rest))
    }

    /// The same, asked by sets of any width, and added to what is found.
    fn add_before_all<const V: usize>(
        &self,
        next: &LeafSet<V>,
        claims: &LeafSet<V>,
        apart: &LeafSet<V>,
        found: &mut LeafSet<V>,
    )
        requires { (k : ℕ) → IsTrue (has_leaf claims.now k) → IsTrue (has_leaf next.now k) }
        ensures { (p : Planned) → IsTableOf p self.now → (done : ℕ → Bool) (list : List ℕ) → IsRowOf (MayComeNext p (λ x. IsTrue (done x))) next.now →
            IsRowOf (λ x. x ∈ list) claims.now → AreDistinct list → AreApart p list apart.now → (n : ℕ) → IsTrue (has_leaf found.new n)
            ↔ (IsTrue (has_leaf found.old n) ⊎ (MayComeNext p (λ x. IsTrue (done x)) n
            × MayFollowInEveryOrder p (DoneOr (λ x. IsTrue (done x)) (n ∷ [])) list)) }
    {
        let here = next.resized();
        let mine = claims.resized();
        let closed = apart.resized();
        let so_far = found.resized();
        let more = self.before_all(&here, &mine, &closed, &so_far);
        put_in(found, &more);
    }
}

impl Plan {
    /// The leaves that may come next after the done ones.
    pub fn next_row(&self, sides: &Sides) -> LeafSet<LEAF_WORDS>
        requires { TellOf self.now sides.now }
        ensures { IsRowOf (MayComeNext self.now (IsDoneIn sides.now)) result }
    {
        // the rows keep how large its leaves are
        let _ = &self.rows;
        self.next_row_in(sides)
    }

    /// The leaves that may come next after the done ones, as far as a set of that width has room for them. It takes as long
    /// as the rows of the plan are wide.
    pub fn next_row_in<const V: usize>(&self, sides: &Sides) -> LeafSet<V>
        requires wide { V ≤ 64 }
        requires tell { TellOf self.now sides.now }
        ensures cut { (x : ℕ) → IsTrue (has_leaf result x) ↔ ((x < 64 * V) × MayComeNext self.now (IsDoneIn sides.now) x) }
        // all of them, where the set has room for each leaf of the plan
        ensures whole { Each (λ n. n < 64 * V) self.now.leaves → IsRowOf (MayComeNext self.now (IsDoneIn sides.now)) result }
    {
        by_width!(&self.rows, table => table.next_row(self.leaves(), &sides.cut()).resized())
    }

    /// Adds to what is found the leaves that may follow with the claimed ones in every order, where it is known
    /// which leaves may come next, and which the claimed ones close off.
    pub fn add_beside<const V: usize>(
        &self,
        next: &LeafSet<V>,
        claims: &LeafSet<V>,
        apart: &LeafSet<V>,
        found: &mut LeafSet<V>,
    )
        ensures { (done : ℕ → Bool) (list : List ℕ) → IsRowOf (MayComeNext self.now (λ x. IsTrue (done x))) next.now →
            IsRowOf (λ x. x ∈ list) claims.now → AreDistinct list → AreApart self.now list apart.now → (n : ℕ) → IsTrue (has_leaf found.new n)
            ↔ (IsTrue (has_leaf found.old n) ⊎ MayFollowInEveryOrder self.now (λ x. IsTrue (done x)) (n ∷ list)) }
    {
        by_width!(&self.rows, table => table.add_beside(next, claims, apart, found));
    }

    /// A leaf for which that one waits, where it may not come next yet: no other settles it than one after which that one may.
    fn first_missing(&self, sides: &Sides, leaf: u32) -> Option<u32>
        requires { TellOf self.now sides.now }
        ensures small { IfSome result (λ first. first < MOST_LEAVES) }
        ensures settled { (first : ℕ) → ¬ (MayComeNext self.now (IsDoneIn sides.now) leaf) → MayComeNext self.now (IsDoneIn sides.now) first →
            MayComeNext self.now (DoneOr (IsDoneIn sides.now) (first ∷ [])) leaf → IsSettledWith self.now first result }
    {
        by_width!(&self.rows, table => table.first_missing(self.leaves(), &sides.cut(), leaf))
    }

    /// Whether the leaves of the list may follow the done ones and that one in every order, where it is known which leaves
    /// they close off.
    fn may_follow(
        &self,
        folds: &[FoldRow],
        sides: &Sides,
        first: u32,
        apart: &LeafSet<LEAF_WORDS>,
        list: &[u32],
    ) -> bool
        requires small { first < MOST_LEAVES }
        requires folds { AreFoldRows self.now.process folds.now }
        requires apart { AreApart self.now list.now apart.now }
        ensures { IsTrue result ↔ MayFollowInEveryOrder self.now (DoneOr (IsDoneIn sides.now) (first ∷ [])) list.now }
    {
        // the rows keep that the goal is folded and ordered
        let _ = &self.rows;
        let done = with(&sides.done, first);
        let after = Sides::new(folds, &done, &LeafSet::new());
        self.in_every_order(&after, apart, list)
    }

    /// Adds to what is found the leaves that may come next, and after which the claimed ones may follow in every
    /// order, where it is known which leaves may come next, and which the claimed ones close off.
    pub fn add_first<const V: usize>(
        &self,
        folds: &[FoldRow],
        sides: &Sides,
        next: &LeafSet<V>,
        list: &[u32],
        claims: &LeafSet<V>,
        apart: &LeafSet<V>,
        found: &mut LeafSet<V>,
    )
        requires tell { TellOf self.now sides.now }
        requires folds { AreFoldRows self.now.process folds.now }
        requires next { IsRowOf (MayComeNext self.now (IsDoneIn sides.now)) next.now }
        requires claims { IsRowOf (λ x. x ∈ list.now) claims.now }
        requires distinct { AreDistinct list.now }
        requires apart { AreApart self.now list.now apart.now }
        ensures { (n : ℕ) → IsTrue (has_leaf found.new n) ↔ (IsTrue (has_leaf found.old n) ⊎ (MayComeNext self.now (IsDoneIn sides.now) n
            × MayFollowInEveryOrder self.now (DoneOr (IsDoneIn sides.now) (n ∷ [])) list.now)) }
    {
        // the rows keep that the goal is folded and ordered
        let _ = &self.rows;
        match first_lacking(list, next) {
            None => self.add_before_all(next, claims, apart, found),
            Some(leaf) => {
                let rest = rest_of(next, claims, apart, found);
                let others = rest.resized();
                let closed = apart.resized();
                let mut all = found.resized();
                self.add_settling(folds, sides, leaf, list, &closed, &others, &mut all);
                put_in(found, &all);
            }
        }
    }

    /// Adds to what is found the leaves that may come next, and after which the claimed ones may follow in every order, where
    /// each of these may come next.
    fn add_before_all<const V: usize>(
        &self,
        next: &LeafSet<V>,
        claims: &LeafSet<V>,
        apart: &LeafSet<V>,
        found: &mut LeafSet<V>,
    )
        requires { (k : ℕ) → IsTrue (has_leaf claims.now k) → IsTrue (has_leaf next.now k) }
        ensures { (done : ℕ → Bool) (list : List ℕ) → IsRowOf (MayComeNext self.now (λ x. IsTrue (done x))) next.now →
            IsRowOf (λ x. x ∈ list) claims.now → AreDistinct list → AreApart self.now list apart.now → (n : ℕ) → IsTrue (has_leaf found.new n)
            ↔ (IsTrue (has_leaf found.old n) ⊎ (MayComeNext self.now (λ x. IsTrue (done x)) n
            × MayFollowInEveryOrder self.now (DoneOr (λ x. IsTrue (done x)) (n ∷ [])) list)) }
    {
        by_width!(&self.rows, table => table.add_before_all(next, claims, apart, found));
    }

    /// Adds those of the rest after which the claimed ones may follow in every order, where that claimed one waits: no other
    /// may let it come next than one that is missing, and one that stands in a choice with that.
    fn add_settling(
        &self,
        folds: &[FoldRow],
        sides: &Sides,
        leaf: u32,
        list: &[u32],
        apart: &LeafSet<LEAF_WORDS>,
        rest: &LeafSet<LEAF_WORDS>,
        found: &mut LeafSet<LEAF_WORDS>,
    )
        requires tell { TellOf self.now sides.now }
        requires folds { AreFoldRows self.now.process folds.now }
        requires apart { AreApart self.now list.now apart.now }
        requires claimed { leaf ∈ list.now }
        requires waits { ¬ (MayComeNext self.now (IsDoneIn sides.now) leaf) }
        requires rest { (n : ℕ) → IsTrue (has_leaf rest.now n) → MayComeNext self.now (IsDoneIn sides.now) n }
        ensures { (n : ℕ) → (MayComeNext self.now (IsDoneIn sides.now) n × MayFollowInEveryOrder self.now (DoneOr (IsDoneIn sides.now) (n ∷ [])) list.now
            → IsTrue (has_leaf rest.now n) ⊎ IsTrue (has_leaf found.old n)) →
            IsTrue (has_leaf found.new n) ↔ (IsTrue (has_leaf found.old n) ⊎ (MayComeNext self.now (IsDoneIn sides.now) n
            × MayFollowInEveryOrder self.now (DoneOr (IsDoneIn sides.now) (n ∷ [])) list.now)) }
    {
        if is_empty(rest) {
            return;
        }
        match self.first_missing(sides, leaf) {
            Some(first) => {
                let candidates = common(with_choices(folds, first), rest);
                let followed = self.followed_by(folds, sides, list, apart, &candidates);
                found.union_with(&followed);
            }
            None => {}
        }
    }

    /// Those of the candidates after which the leaves of the list may follow in every order.
    fn followed_by(
        &self,
        folds: &[FoldRow],
        sides: &Sides,
        list: &[u32],
        apart: &LeafSet<LEAF_WORDS>,
        candidates: &LeafSet<LEAF_WORDS>,
    ) -> LeafSet<LEAF_WORDS>
        requires folds { AreFoldRows self.now.process folds.now }
        requires apart { AreApart self.now list.now apart.now }
        ensures { IsRowOf (λ n. n ∈ leaves self.now.process × (IsTrue (has_leaf candidates.now n)
            × MayFollowInEveryOrder self.now (DoneOr (IsDoneIn sides.now) (n ∷ [])) list.now)) result }
    {
        let mut all = LeafSet::new();
        for leaf in self.leaves() {
            if self.is_followed_by(folds, sides, list, apart, candidates, *leaf) {
                all.insert(*leaf);
            }
        }
        all
    }

    /// Whether it is a candidate, and the leaves of the list may follow it in every order.
    fn is_followed_by(
        &self,
        folds: &[FoldRow],
        sides: &Sides,
        list: &[u32],
        apart: &LeafSet<LEAF_WORDS>,
        candidates: &LeafSet<LEAF_WORDS>,
        leaf: u32,
    ) -> bool
        requires small { leaf < MOST_LEAVES }
        requires folds { AreFoldRows self.now.process folds.now }
        requires apart { AreApart self.now list.now apart.now }
        ensures { IsTrue result ↔ (IsTrue (has_leaf candidates.now leaf)
            × MayFollowInEveryOrder self.now (DoneOr (IsDoneIn sides.now) (leaf ∷ [])) list.now) }
    {
        candidates.has(leaf) && self.may_follow(folds, sides, leaf, apart, list)
    }
}

/// What is in both.
fn common(one: LeafSet<LEAF_WORDS>, other: &LeafSet<LEAF_WORDS>) -> LeafSet<LEAF_WORDS>
    ensures { (n : ℕ) → IsTrue (has_leaf result n) ↔ (IsTrue (has_leaf one n) × IsTrue (has_leaf other.now n)) }
{
    let mut outside = one;
    outside.remove_all(other);
    let mut common = one;
    common.remove_all(&outside);
    common
}
