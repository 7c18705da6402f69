//! Takers for the events of a run, tried one after another.
ghost use Rattle.std.specs.Prelude.{◌≡◌, ◌↔◌, ◌⊎◌, ◌≤◌, ◌<◌, [], ℕ, List, Some, slice_get, length, take, drop, false, IsTrue, IfOk, IfNone, IfSome};
ghost use Rattle.flow_model.specs.Duties.{Duties, IsConstraintOf};
ghost use Rattle.flow_model.specs.Lists.{◌∈◌};
ghost use Rattle.flow_policy.specs.declared.tie.Tie.{Tie};
ghost use Rattle.flow_stages.specs.declared.staffing.Filled.TheVariants as fill;
ghost use Rattle.flow_stages.specs.declared.staffing.Step.TheVariants as stepped;
ghost use Rattle.flow_stages.specs.declared.wanted.Wanted.{Wanted};
ghost use Rattle.flow_stages.specs.declared.wanted.Wanted.TheVariants.{Anybody};
ghost use Rattle.flow_stages.specs.Fitting.{HoldsRoles, GoesWith, MayHave, Fits, HasSomebody, Misses, MissesBy, AreUntied, IsFar, taker_by};
ghost use Rattle.flow_stages.specs.Remains.{RemainsAt};
ghost use Rattle.flow_stages.specs.Trying.{ComesAt, IsToCome, AreOfFirst, AreTogether};

use crate::wanted::Wanted;
use flow_policy::{Policy, Tie};
use std::alloc::{AllocError, Global};

/// Whether takers were found.
#[derive(Clone, Copy)]
pub enum Filled {
    Found,
    /// There are none.
    Never,
    /// The states are spent.
    Spent,
}

/// What comes of a step.
#[derive(Clone, Copy)]
pub enum Step {
    /// Users are tried from that number on.
    On(u32),
    Found,
    /// All users were tried.
    Never,
}

/// A policy, and a number past those of all users who have a role.
#[derive(Clone, Copy)]
pub struct Staff<'a> {
    pub(crate) policy: &'a Policy,
    pub(crate) users: u32,
}

/// Whether a tie is with that event.
fn is_tied(ties: &[Tie], event: u32) -> bool
    ensures { IsTrue result ↔ ((tie : Tie) × (tie ∈ ties.now) × (tie.other ≡ event)) }
{
    for tie in ties {
        if tie.other == event {
            return true;
        }
    }
    false
}

/// Takes the last taker back.
fn back(taken: &mut Vec<(u32, u32)>) -> Step
    ensures first { (events : List ℕ) → AreOfFirst events taken.old.items → AreOfFirst events taken.new.items }
    ensures remains { (events : List ℕ) (to : ℕ → ℕ) → AreOfFirst events taken.old.items → ComesAt taken.old.items ⊥ to → RemainsAt events taken.new.items to result }
    ensures together { (d : Duties) (wanted : Wanted) → AreTogether d wanted taken.old.items → AreTogether d wanted taken.new.items }
    ensures going { ¬ (result ≡ stepped.Found) }
{
    match taken.pop() {
        Some((_, user)) => Step::On(user.saturating_add(1)),
        None => Step::Never,
    }
}

impl Staff<'_> {
    /// Whether the two events are for different users.
    fn is_apart(&self, event: u32, other: u32) -> bool
        ensures { IsTrue result ↔ ((i : ℕ) × IsConstraintOf self.now.policy.now.duties.separate i event other) }
    {
        is_tied(self.policy.separations(event), other)
    }

    /// Whether the two events are for one user.
    fn is_bound(&self, event: u32, other: u32) -> bool
        ensures { IsTrue result ↔ ((i : ℕ) × IsConstraintOf self.now.policy.now.duties.bound i event other) }
    {
        is_tied(self.policy.bindings(event), other)
    }

    /// Whether the event may go to the user beside another event that goes to the taker.
    fn goes_with(&self, wanted: Wanted, event: u32, user: u32, other: u32, taker: u32) -> bool
        ensures { IsTrue result ↔ GoesWith self.now.policy.now.duties wanted event user other taker }
    {
        if taker == user {
            event == other || !self.is_apart(event, other)
        } else {
            event != other && !self.is_bound(event, other) && !wanted.is_of(event, other)
        }
    }

    /// Whether the event may go to the user beside the events that have takers.
    fn may_have(&self, wanted: Wanted, taken: &[(u32, u32)], event: u32, user: u32) -> bool
        ensures { IsTrue result ↔ MayHave self.now.policy.now.duties wanted taken.now event user }
    {
        if !self.policy.has_role(user, event) {
            return false;
        }
        for one in taken {
            if !self.goes_with(wanted, event, user, one.0, one.1) {
                return false;
            }
        }
        true
    }

    /// The first user from that number on to whom the event may go beside the events that have takers.
    fn next_user(&self, wanted: Wanted, taken: &[(u32, u32)], event: u32, from: u32) -> Option<u32>
        ensures none { IfNone result ((user : ℕ) → from ≤ user → user < self.now.users → ¬ (MayHave self.now.policy.now.duties wanted taken.now event user)) }
        ensures user { IfSome result (λ found. MayHave self.now.policy.now.duties wanted taken.now event found) }
        ensures first { IfSome result (λ found. (user : ℕ) → from ≤ user → user < found → ¬ (MayHave self.now.policy.now.duties wanted taken.now event user)) }
    {
        for user in from..self.users {
            if self.may_have(wanted, taken, event, user) {
                return Some(user);
            }
        }
        None
    }

    /// Whether nobody may have the event beside the events that have takers.
    fn nobody_may_have(&self, taken: &[(u32, u32)], event: u32) -> bool
        requires { HoldsRoles self.now.policy.now.duties self.now.users }
        ensures nobody { IsTrue result → (user : ℕ) → ¬ (MayHave self.now.policy.now.duties Anybody taken.now event user) }
        ensures somebody { result ≡ false → (user : ℕ) × MayHave self.now.policy.now.duties Anybody taken.now event user }
    {
        match self.next_user(Wanted::Anybody, taken, event, 0) {
            Some(_) => false,
            None => true,
        }
    }

    /// Whether that is so of the takers for all events that was asked.
    fn is_end(&self, wanted: Wanted, taken: &[(u32, u32)]) -> bool
        requires { HoldsRoles self.now.policy.now.duties self.now.users }
        ensures missed { result ≡ false → MissesBy self.now.policy.now.duties wanted taken.now }
        ensures met { IsTrue result → ¬ (MissesBy self.now.policy.now.duties wanted taken.now) }
    {
        match wanted {
            Wanted::NobodyFor(event) => self.nobody_may_have(taken, event),
            Wanted::Anybody | Wanted::OneFor(_, _) => true,
        }
    }

    /// Gives the event, which is next, a taker, looked for from that number on; or takes the last taker back.
    fn give(
        &self,
        wanted: Wanted,
        event: u32,
        taken: &mut Vec<(u32, u32)>,
        from: u32,
    ) -> Result<Step, AllocError>
        requires { HoldsRoles self.now.policy.now.duties self.now.users }
        ensures first { (events : List ℕ) → AreOfFirst events taken.old.items → slice_get events (length taken.old.items) ≡ Some event → AreOfFirst events taken.new.items }
        ensures remains { (events : List ℕ) (to : ℕ → ℕ) → AreOfFirst events taken.old.items → slice_get events (length taken.old.items) ≡ Some event →
            Fits self.now.policy.now.duties wanted (λ e. e ∈ events) to → IsToCome events taken.old.items from to →
            IfOk result (RemainsAt events taken.new.items to) }
        ensures together { AreTogether self.now.policy.now.duties wanted taken.old.items → AreTogether self.now.policy.now.duties wanted taken.new.items }
        ensures going { IfOk result (λ step. ¬ (step ≡ stepped.Found)) }
    {
        match self.next_user(wanted, taken, event, from) {
            Some(user) => {
                taken.push((event, user))?;
                Ok(Step::On(0))
            }
            None => Ok(back(taken)),
        }
    }

    /// Whether who takes the other event may bear on who may take the event.
    fn is_near(&self, event: u32, other: u32) -> bool
        ensures { result ≡ false → AreUntied self.now.policy.now.duties event other }
    {
        event == other || self.is_apart(event, other) || self.is_bound(event, other)
    }

    /// Adds each of the events to those that bear on who may take the event, or to the others.
    fn sort_out(
        &self,
        event: u32,
        events: &[u32],
        near: &mut Vec<u32>,
        far: &mut Vec<u32>,
    ) -> Result<(), AllocError>
        requires none { (near.old.items ≡ []) × (far.old.items ≡ []) }
        ensures all { IfOk result (λ x. (f : ℕ) → (f ∈ events.now) ↔ ((f ∈ near.new.items) ⊎ (f ∈ far.new.items))) }
        ensures far { IfOk result (λ x. (f : ℕ) → f ∈ far.new.items → AreUntied self.now.policy.now.duties event f) }
    {
        for other in events {
            if self.is_near(event, *other) {
                near.push(*other)?;
            } else {
                far.push(*other)?;
            }
        }
        Ok(())
    }

    /// The events, those first that bear on who may take the event, and how many these are.
    fn nearest(
        &self,
        alloc: Global,
        event: u32,
        events: &[u32],
    ) -> Result<(Vec<u32>, usize), AllocError>
        ensures all { IfOk result (λ found. (f : ℕ) → (f ∈ events.now) ↔ (f ∈ found.0.items)) }
        ensures far { IfOk result (λ found. (f : ℕ) → f ∈ found.0.items → (f ∈ take found.1 found.0.items) ⊎ AreUntied self.now.policy.now.duties event f) }
    {
        let mut near = Vec::new(alloc);
        let mut far = Vec::new(alloc);
        self.sort_out(event, events, &mut near, &mut far)?;
        let count = near.len();
        near.extend_from_slice(&far)?;
        Ok((near, count))
    }

    /// Whether so many events have takers, and these are not what is wanted.
    fn is_missed(&self, wanted: Wanted, near: usize, taken: &[(u32, u32)]) -> bool
        requires { HoldsRoles self.now.policy.now.duties self.now.users }
        ensures { IsTrue result → (length taken.now ≡ near) × MissesBy self.now.policy.now.duties wanted taken.now }
    {
        taken.len() == near && !self.is_end(wanted, taken)
    }

    /// Gives the next event a taker, looked for from that number on; or takes the last taker back. Once so many events have takers, no
    /// further taker bears on what is wanted.
    fn step(
        &self,
        wanted: Wanted,
        events: &[u32],
        near: usize,
        taken: &mut Vec<(u32, u32)>,
        from: u32,
    ) -> Result<Step, AllocError>
        requires roles { HoldsRoles self.now.policy.now.duties self.now.users }
        requires first { AreOfFirst events.now taken.old.items }
        requires far { (f : ℕ) → f ∈ events.now → (f ∈ take near events.now) ⊎ IsFar self.now.policy.now.duties wanted f }
        ensures first { AreOfFirst events.now taken.new.items }
        ensures remains { (to : ℕ → ℕ) → Fits self.now.policy.now.duties wanted (λ e. e ∈ events.now) to → IsToCome events.now taken.old.items from to →
            IfOk result (λ step. Misses self.now.policy.now.duties wanted (λ e. e ∈ events.now) to ⊎ RemainsAt events.now taken.new.items to step) }
        ensures together { AreTogether self.now.policy.now.duties wanted taken.old.items → AreTogether self.now.policy.now.duties wanted taken.new.items }
        ensures found { IfOk result (λ step. step ≡ stepped.Found → (length events.now ≤ length taken.new.items) × ¬ (MissesBy self.now.policy.now.duties wanted taken.new.items)) }
    {
        if self.is_missed(wanted, near, taken) {
            return Ok(back(taken));
        }
        match events.get(taken.len()) {
            Some(event) => self.give(wanted, *event, taken, from),
            None => Ok(if self.is_end(wanted, taken) {
                Step::Found
            } else {
                back(taken)
            }),
        }
    }

    /// Looks for takers of the events, one event after another. Each time that one is looked for is a state. What is wanted hangs on the
    /// takers of the first so many events.
    pub(crate) fn fill(
        &self,
        wanted: Wanted,
        events: &[u32],
        near: usize,
        taken: &mut Vec<(u32, u32)>,
        states: &mut u64,
    ) -> Result<Filled, AllocError>
        requires roles { HoldsRoles self.now.policy.now.duties self.now.users }
        requires none { taken.old.items ≡ [] }
        requires far { (f : ℕ) → f ∈ events.now → (f ∈ take near events.now) ⊎ IsFar self.now.policy.now.duties wanted f }
        ensures never { (to : ℕ → ℕ) → Fits self.now.policy.now.duties wanted (λ e. e ∈ events.now) to →
            IfOk result (λ filled. filled ≡ fill.Never → Misses self.now.policy.now.duties wanted (λ e. e ∈ events.now) to) }
        ensures found { IfOk result (λ filled. filled ≡ fill.Found → Fits self.now.policy.now.duties wanted (λ e. e ∈ events.now) (taker_by taken.new.items)
            × ¬ (Misses self.now.policy.now.duties wanted (λ e. e ∈ events.now) (taker_by taken.new.items))) }
        ensures spent { IfOk result (λ filled. filled ≡ fill.Spent → states.new ≡ 0) }
        ensures fewer { states.new ≤ states.old }
    {
        let mut from = 0;
        let most = *states;
        for round in 0..most {
            *states -= 1;
            match self.step(wanted, events, near, taken, from)? {
                Step::On(next) => from = next,
                Step::Found => return Ok(Filled::Found),
                Step::Never => return Ok(Filled::Never),
            }
        }
        Ok(Filled::Spent)
    }

    /// Looks for takers of the events under whom nobody may take the event.
    pub(crate) fn fill_for_nobody(
        &self,
        alloc: Global,
        event: u32,
        events: &[u32],
        taken: &mut Vec<(u32, u32)>,
        states: &mut u64,
    ) -> Result<Filled, AllocError>
        requires roles { HoldsRoles self.now.policy.now.duties self.now.users }
        requires none { taken.old.items ≡ [] }
        ensures never { (to : ℕ → ℕ) → Fits self.now.policy.now.duties Anybody (λ e. e ∈ events.now) to →
            IfOk result (λ filled. filled ≡ fill.Never → HasSomebody self.now.policy.now.duties event (λ e. e ∈ events.now) to) }
        ensures found { IfOk result (λ filled. filled ≡ fill.Found → Fits self.now.policy.now.duties Anybody (λ e. e ∈ events.now) (taker_by taken.new.items)
            × ¬ (HasSomebody self.now.policy.now.duties event (λ e. e ∈ events.now) (taker_by taken.new.items))) }
        ensures spent { IfOk result (λ filled. filled ≡ fill.Spent → states.new ≡ 0) }
        ensures fewer { states.new ≤ states.old }
    {
        let (ordered, near) = self.nearest(alloc, event, events)?;
        self.fill(Wanted::NobodyFor(event), &ordered, near, taken, states)
    }
}
