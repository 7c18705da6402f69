ghost use Rattle.std.specs.Prelude.{◌≡◌, ◌<◌, ◌≤◌, ◌↔◌, ℕ, List, [], ◌∷◌, ◌++◌, IfNone, IfOk, IfSome, IsTrue, if◌then◌else◌, length, take, nat_le, false, Some, slice_get, slice_index};
ghost use Rattle.std.specs.List.{filter};
ghost use Rattle.std.specs.Vec.{vec_len, vec_capacity};
ghost use Rattle.flow_model.specs.Lists.{◌∈◌, Each, AreDistinct};
ghost use Rattle.flow_model.specs.Resolution.{ChoiceOption};
ghost use Rattle.flow_plan.specs.Options.{options_of, option_of};
ghost use Rattle.flow_plan.specs.Rows.{IsRowOf};
ghost use Rattle.flow_plan.specs.Sampled.{Sampled};
ghost use Rattle.flow_residual.specs.Options.{EachHas};
ghost use Rattle.flow_residual.specs.Invariant.{AreOpenPlaces};
ghost use Rattle.flow_residual.specs.PlanRows.{AreLeafRows, AreNext, HasLeafIn};
ghost use Rattle.flow_residual.specs.Question.{CanBegin, IsBarred, Takes};
ghost use Rattle.flow_residual.specs.Remaining.{banned};
ghost use Rattle.flow_residual.specs.Telling.{AreServing, IsApart, IsOrderedOption, IsSetOf, Tells};
ghost use Rattle.flow_residual.specs.Track.{IsFront, IsNextRow};

use crate::fronts::{Change, follow};
use crate::plan_rows::PlanRows;
use crate::question::Stand;
use crate::sets::{closed_by, row_of, set_of, set_of_bans, sides_by};
use flow_model::MOST_LEAVES;
use flow_plan::{Compiled, FoldRow, KnotFree, Plan, Sides};
use leaf_rows::{LEAF_WORDS, LeafSet};
use std::alloc::{AllocError, Global};
use std::marker::Model;

/// A leaf that no longer may be in the run.
#[derive(Clone, Copy)]
pub(crate) struct Ban {
    /// How long the journal was when it was banned.
    pub(crate) index: u32,
    pub(crate) leaf: u32,
}

/// The memory of a residual.
#[derive(Drop)]
struct Room {
    fronts: Vec<usize>,
    leaves: PlanRows,
    rows: PlanRows,
    journal: Vec<u32>,
    bans: Vec<Ban>,
    opens: Vec<u32>,
}

impl Room {
    /// For so many plans, where no leaf is done and none is banned.
    fn new(alloc: Global, plans: &[KnotFree]) -> Result<Room, AllocError>
        ensures fronts { IfOk result (λ room. EachHas (IsFront []) (options_of plans.now) room.fronts.items) }
        ensures leaves { IfOk result (λ room. AreLeafRows (options_of plans.now) room.leaves) }
        ensures journal { IfOk result (λ room. room.journal.items ≡ []) }
        ensures journal_room { IfOk result (λ room. MOST_LEAVES ≤ vec_capacity room.journal) }
        ensures bans { IfOk result (λ room. room.bans.items ≡ []) }
        ensures bans_room { IfOk result (λ room. MOST_LEAVES ≤ vec_capacity room.bans) }
        ensures opens { IfOk result (λ room. room.opens.items ≡ []) }
        ensures opens_room { IfOk result (λ room. MOST_LEAVES ≤ vec_capacity room.opens) }
    {
        let start: usize = 0;
        Ok(Room {
            fronts: vec![in alloc; start; plans.len()]?,
            leaves: PlanRows::of_leaves(alloc, plans)?,
            rows: PlanRows::new(alloc, plans)?,
            journal: Vec::with_capacity(alloc, MOST_LEAVES as usize)?,
            bans: Vec::with_capacity(alloc, MOST_LEAVES as usize)?,
            opens: Vec::with_capacity(alloc, MOST_LEAVES as usize)?,
        })
    }
}

/// What each plan keeps of its goal and its pairs, of all plans at once. Nothing is looked at when it runs.
fn all_ordered(plans: &[KnotFree])
    ensures { Each IsOrderedOption (options_of plans.now) }
{
    for plan in plans {
        let _tokens = plan.plan().tokens();
    }
}

/// What is still possible in a run. All memory is taken when it is made.
#[derive(Drop)]
pub struct Residual {
    plans: Vec<KnotFree>,
    /// The choices that stay, for all plans.
    folds: Vec<FoldRow>,
    /// How much of the journal is a ready run of each of the plans.
    fronts: Vec<usize>,
    journal: Vec<u32>,
    /// The leaves of the journal.
    done: LeafSet<LEAF_WORDS>,
    bans: Vec<Ban>,
    /// Their leaves.
    banned: LeafSet<LEAF_WORDS>,
    /// What the choices tell by the journal and the bans: found once for all plans, where either changes.
    sides: Sides,
    /// The open places of the journal, the last of them last. A place is open where its leaf could be avoided when it
    /// was pushed, whatever comes later.
    opens: Vec<u32>,
    /// The leaves of each plan.
    leaves: PlanRows,
    /// Of each plan that follows the journal, the leaves that may come next, where `fresh`.
    rows: PlanRows,
    fresh: bool,
    /// How many questions about a leaf were prepared for while the rows are not fresh.
    asked: u32,
}

/// Puts the place behind the others, where it is open.
fn note_place(opens: &mut Vec<u32>, place: u32, is_open: bool)
    requires room { vec_len opens.old < vec_capacity opens.old }
    ensures items { opens.new.items ≡ (if is_open then opens.old.items ++ place ∷ [] else opens.old.items) }
    ensures capacity { vec_capacity opens.new ≡ vec_capacity opens.old }
{
    if is_open {
        opens.push_reserved(place);
    }
}

impl Model for Residual {
    ghost use Rattle.flow_residual.specs.Remaining.{Remaining, remaining_code};

    ghost Value = { Remaining };

    ghost coded = { remaining_code };

    ghost use Rattle.flow_residual.specs.View.{remaining};
    ghost use Rattle.flow_residual.specs.Invariant.{IsRoomy};

    ghost view = { λ r. remaining r.plans.items r.journal.items r.bans.items };

    ghost invariant = { IsRoomy };
}

impl Residual {
    ghost use Rattle.flow_residual.specs.Remaining.{MayComeNext};

    /// What is possible at the start.
    pub fn new(alloc: Global, compiled: Compiled) -> Result<Residual, AllocError>
        ensures options { IfOk result (λ r. r.options ≡ options_of compiled.plans) }
        ensures journal { IfOk result (λ r. r.journal ≡ []) }
        ensures bans { IfOk result (λ r. r.bans ≡ []) }
    {
        let Room {
            fronts,
            leaves,
            rows,
            journal,
            bans,
            opens,
        } = Room::new(alloc, compiled.plans())?;
        let (plans, folds) = compiled.into_parts();
        all_ordered(&plans);
        let none = LeafSet::new();
        let sides = sides_by(&folds, &none, &none);
        Ok(Residual {
            plans,
            folds,
            fronts,
            journal,
            done: none,
            bans,
            banned: none,
            sides,
            opens,
            leaves,
            rows,
            fresh: false,
            asked: 0,
        })
    }

    /// The leaves that count, in order.
    pub fn journal(&self) -> &[u32]
        ensures leaves { result.now ≡ self.now.journal }
        ensures few { length self.now.journal ≤ MOST_LEAVES }
    {
        &self.journal
    }

    /// Whether the leaf is on the journal. Takes the same time however long that is.
    pub fn is_done(&self, leaf: u32) -> bool
        ensures { IsTrue result ↔ (leaf ∈ self.now.journal) }
    {
        leaf < MOST_LEAVES && self.done.has(leaf)
    }

    /// How many plans there are.
    pub(crate) fn count(&self) -> usize
        ensures { result ≡ length self.now.options }
    {
        self.plans.len()
    }

    /// The plan at that place.
    pub(crate) fn plan(&self, place: usize) -> &Plan
        requires { place < length self.now.options }
        ensures at { slice_get self.now.options place ≡ Some (option_of result.now) }
        ensures ordered { IsOrderedOption (option_of result.now) }
    {
        self.plans[place].plan()
    }

    /// How much of the journal is a ready run of the plan at that place.
    pub(crate) fn front(&self, place: usize) -> usize
        requires { place < length self.now.options }
        ensures { (o : ChoiceOption) → slice_get self.now.options place ≡ Some o → IsFront self.now.journal o result }
    {
        self.fronts[place]
    }

    /// Whether the plan at that place has a leaf of the set, as far as its row tells. The plan is not asked.
    pub(crate) fn has_leaf_in(&self, place: usize, set: &LeafSet<LEAF_WORDS>) -> bool
        ensures { (o : ChoiceOption) → slice_get self.now.options place ≡ Some o → IsTrue result → HasLeafIn o set.now }
    {
        self.leaves.meets(place, set)
    }

    /// The rows of the choices that stay.
    pub(crate) fn folds(&self) -> &[FoldRow]
        ensures { Each (AreServing result.now) self.now.options }
    {
        &self.folds
    }

    /// What the choices tell.
    pub(crate) fn sides(&self) -> &Sides
        ensures tell { Tells self.now.options self.now.journal (banned self.now.bans) result.now }
        ensures ordered { Each IsOrderedOption self.now.options }
    {
        &self.sides
    }

    /// What they would tell if the leaf were done.
    pub(crate) fn sides_after(&self, leaf: u32) -> Sides
        requires { leaf < MOST_LEAVES }
        ensures { Tells self.now.options (self.now.journal ++ leaf ∷ []) (banned self.now.bans) result }
    {
        let mut done = self.done;
        done.insert(leaf);
        sides_by(&self.folds, &done, &self.banned)
    }

    /// What they would tell if the leaf were banned.
    pub(crate) fn sides_without(&self, leaf: u32) -> Sides
        ensures { Tells self.now.options self.now.journal (banned self.now.bans ++ leaf ∷ []) result }
    {
        // no option has a greater one
        if MOST_LEAVES <= leaf {
            return self.sides;
        }
        let mut excluded = self.banned;
        excluded.insert(leaf);
        sides_by(&self.folds, &self.done, &excluded)
    }

    /// The leaves that those of the set close off.
    pub(crate) fn apart(&self, set: &LeafSet<LEAF_WORDS>) -> LeafSet<LEAF_WORDS>
        ensures { (list : List ℕ) → IsSetOf list set.now → Each (IsApart list result) self.now.options }
    {
        closed_by(&self.folds, set)
    }

    /// Whether a live plan that has the leaf can go on without the banned ones once it is begun.
    pub(crate) fn may_begin(&self, leaf: u32) -> bool
        ensures small { IsTrue result → leaf < MOST_LEAVES }
        ensures begins { IsTrue result → CanBegin self.now leaf }
        ensures barred { result ≡ false → IsBarred self.now leaf }
    {
        leaf < MOST_LEAVES && !self.sides.barred.has(leaf)
    }

    /// The claimed leaves as a set, where each may be begun and none stands twice.
    pub(crate) fn beginning(&self, claims: &[u32]) -> Option<LeafSet<LEAF_WORDS>>
        ensures some { IfSome result (λ set. AreDistinct claims.now × IsRowOf (λ x. x ∈ claims.now) set × Each (CanBegin self.now) claims.now) }
        ensures none { IfNone result ((o : ChoiceOption) (stand : Stand) (leaf : ℕ) → ¬ (Takes self.now claims.now stand leaf o)) }
    {
        let barred = &self.sides.barred;
        let Some(set) = row_of(claims) else {
            return None;
        };
        if barred.meets(&set) {
            return None;
        }
        Some(set)
    }

    /// The open places of the journal.
    pub(crate) fn opens(&self) -> &[u32]
        ensures { AreOpenPlaces self.now result.now }
    {
        &self.opens
    }

    /// The leaf is done.
    pub fn push(&mut self, leaf: u32)
        requires { MayComeNext self.old leaf }
        ensures { self.new ≡ record self.old { journal = self.old.journal ++ leaf ∷ [] } }
    {
        let is_open = self.can_avoid(leaf);
        note_place(&mut self.opens, self.journal.len() as u32, is_open);
        follow(
            &self.plans,
            &mut self.fronts,
            &self.journal,
            &self.sides,
            Change::Done(leaf),
        );
        self.journal.push_reserved(leaf);
        self.done.insert(leaf);
        self.sides = sides_by(&self.folds, &self.done, &self.banned);
        self.fresh = false;
        self.asked = 0;
    }

    /// The leaf may no longer be in the run.
    pub fn ban(&mut self, leaf: u32)
        requires { MayComeNext self.old leaf }
        ensures { self.new ≡ record self.old { bans = self.old.bans ++ (length self.old.journal, leaf) ∷ [] } }
    {
        let index = self.journal.len() as u32;
        self.bans.push_reserved(Ban { index, leaf });
        self.banned.insert(leaf);
        self.sides = sides_by(&self.folds, &self.done, &self.banned);
    }

    /// The journal ends before the index, and the leaf that it had there is banned. Later bans are lifted.
    pub fn rewind_to(&mut self, index: u32)
        requires { index < length self.old.journal }
        ensures { self.new ≡ record self.old {
          journal = take index self.old.journal;
          bans = filter (λ ban. nat_le ban.0 index) self.old.bans ++ (index, slice_index self.old.journal index) ∷ [];
        } }
    {
        let leaf = self.journal[index as usize];
        follow(
            &self.plans,
            &mut self.fronts,
            &self.journal,
            &self.sides,
            Change::Back(index),
        );
        self.bans.retain(|ban| ban.index <= index);
        self.bans.push_reserved(Ban { index, leaf });
        self.opens.retain(|place| *place < index);
        self.journal.truncate(index as usize);
        self.done = set_of(&self.journal);
        self.banned = set_of_bans(&self.bans);
        self.sides = sides_by(&self.folds, &self.done, &self.banned);
        self.fresh = false;
        self.asked = 0;
    }

    /// Finds for each plan what may come next, so that the questions about this journal need not.
    pub fn look_ahead(&mut self)
        ensures { self.new ≡ self.old }
    {
        if !self.fresh {
            self.fresh = self
                .rows
                .look(&self.plans, &self.fronts, &self.journal, &self.sides);
        }
    }

    /// Is called before a question about one leaf. Such a question takes less time than a look ahead, which finds all leaves; but once
    /// as many have come about this journal as there may be leaves, they have taken as much, and it looks ahead.
    pub fn prepare(&mut self)
        ensures { self.new ≡ self.old }
    {
        if self.fresh {
            return;
        }
        if self.asked < self.rows.most_leaves() {
            self.asked += 1;
        } else {
            self.look_ahead();
        }
    }

    /// The rows of what may come next, where they were made for this journal.
    pub(crate) fn next_rows(&self) -> Option<&PlanRows>
        ensures { IfSome result (λ rows. AreNext self.now.journal self.now.options rows.now) }
    {
        if self.fresh { Some(&self.rows) } else { None }
    }

    /// The leaves that may come next in the plan at that place, where it follows the journal.
    pub(crate) fn next_row(&self, place: usize) -> LeafSet<LEAF_WORDS>
        requires { place < length self.now.options }
        ensures { (o : ChoiceOption) → slice_get self.now.options place ≡ Some o → IsNextRow self.now.journal o result }
    {
        self.plan(place).next_row(self.sides())
    }
}
