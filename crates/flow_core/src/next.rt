ghost use Rattle.std.specs.Prelude.{◌≡◌, ◌<◌, ◌↔◌, ℕ, IsTrue, IfOk, MatchOption};
ghost use Rattle.flow_model.specs.Lists.{◌∈◌, Each};
ghost use Rattle.flow_model.specs.Run.{CanDoAside};
ghost use Rattle.flow_model.specs.Verdict.{AreJust};
ghost use Rattle.flow_laws.specs.Histories.{NeverWaits};

use crate::run::Core;
use flow_model::Label;
use std::alloc::{AllocError, Global};

/// What a run can do next.
#[derive(Clone, Copy)]
pub enum Next {
    /// The leaf can be taken or done.
    Act(u32),
    /// Nothing can be done before the claim, or another, is answered.
    Wait(u32),
    /// The journal is a whole execution: the run can be committed.
    Finished,
    /// Only tests and absences that are false now are left, this leaf among them.
    Stuck(u32),
    /// The run is over.
    Ended,
}

/// What is listed of a run.
#[derive(Clone, Copy)]
enum Listed {
    /// The leaves that can act.
    Acting,
    /// The leaves that can be done, whatever holds.
    Left,
    /// The facts that hold.
    Holding,
}

impl Core {
    ghost use Rattle.flow_core.specs.Run.{schema, now};
    ghost use Rattle.flow_core.specs.declared.next.Next.TheVariants.{Stuck};
    ghost use Rattle.flow_core.specs.Next.{CanStep, CanAct, IsWaiting, IsLeast, IsNext};
    ghost use Rattle.flow_core.specs.Lists.{HoldsNow, IsListed};

    /// Whether the leaf can be taken or done.
    pub fn can_act(&self, leaf: u32) -> bool
        ensures { IsTrue result ↔ CanAct self.now leaf }
    {
        !self.committed && self.can_step(leaf)
    }

    /// Whether the run is stuck, and the leaf is one that waits.
    pub fn waits(&self, leaf: u32) -> bool
        ensures { IsTrue result ↔ IsWaiting self.now leaf }
    {
        match self.look() {
            Next::Stuck(_) => self.can_do_aside(leaf),
            _ => false,
        }
    }

    /// What the run can do next. Without tests and absences it is never stuck.
    pub fn next(&self) -> Next
        ensures next { IsNext self.now result }
        ensures without_tests { Each NeverWaits (schema self.now).labels → (leaf : ℕ) → ¬ (result ≡ Stuck leaf) }
    {
        // brings what the run keeps: its history is legal, on which the second clause rests
        let _ = &self.history;
        self.look()
    }

    /// What the run can do next.
    fn look(&self) -> Next
        ensures { IsNext self.now result }
    {
        if self.committed {
            return Next::Ended;
        }
        if let Some(leaf) = self.least_step() {
            return Next::Act(leaf);
        }
        if let Some(claim) = self.least_claim() {
            return Next::Wait(claim);
        }
        if self.is_complete() {
            return Next::Finished;
        }
        match self.least_left() {
            Some(leaf) => Next::Stuck(leaf),
            None => unreachable!(),
        }
    }

    /// Whether the leaf can be taken or done, where the run is not over.
    fn can_step(&self, leaf: u32) -> bool
        ensures { IsTrue result ↔ CanStep self.now leaf }
    {
        let Some(label) = self.label_at(leaf) else {
            return false;
        };
        match label {
            Label::Event(_) => self.can_take(leaf),
            _ => self.label_holds(label) && self.may_be_done(leaf),
        }
    }

    /// Whether the leaf is on the journal. It is not done again, so no plan is asked for it.
    pub(crate) fn is_done(&self, leaf: u32) -> bool
        ensures done { IsTrue result ↔ (leaf ∈ (now self.now).journal) }
        ensures no_step { IsTrue result → ¬ (CanStep self.now leaf) }
        ensures not_left { IsTrue result → ¬ (CanDoAside (schema self.now) (now self.now) leaf) }
    {
        self.residual.is_done(leaf)
    }

    /// Whether the leaf can be done, whatever holds. Where the run is stuck, these are the leaves that wait.
    pub fn can_do_aside(&self, leaf: u32) -> bool
        ensures { IsTrue result ↔ CanDoAside (schema self.now) (now self.now) leaf }
    {
        let Some(label) = self.label_at(leaf) else {
            return false;
        };
        match label {
            Label::Event(_) => false,
            _ => self.may_be_done(leaf),
        }
    }

    /// The least leaf that can be taken or done, where the run is not over.
    fn least_step(&self) -> Option<u32>
        ensures { MatchOption result ((leaf : ℕ) → ¬ (CanStep self.now leaf)) (IsLeast (CanStep self.now)) }
    {
        for leaf in 0..self.leaves() {
            if !self.is_done(leaf) && self.can_step(leaf) {
                return Some(leaf);
            }
        }
        None
    }

    /// The least leaf that can be done, whatever holds.
    fn least_left(&self) -> Option<u32>
        ensures { MatchOption result ((leaf : ℕ) → ¬ (CanDoAside (schema self.now) (now self.now) leaf))
            (IsLeast (CanDoAside (schema self.now) (now self.now))) }
    {
        for leaf in 0..self.leaves() {
            if !self.is_done(leaf) && self.can_do_aside(leaf) {
                return Some(leaf);
            }
        }
        None
    }

    /// The leaves that can be taken or done, rising.
    pub fn enabled(&self, alloc: Global) -> Result<Vec<u32>, AllocError>
        ensures { IfOk result (λ leaves. AreJust (CanAct self.now) leaves.items) }
    {
        self.list(alloc, Listed::Acting, self.leaves())
    }

    /// The leaves that wait, rising: none where the run is not stuck.
    pub fn waiting(&self, alloc: Global) -> Result<Vec<u32>, AllocError>
        ensures { IfOk result (λ leaves. AreJust (IsWaiting self.now) leaves.items) }
    {
        match self.next() {
            Next::Stuck(_) => self.list(alloc, Listed::Left, self.leaves()),
            _ => Ok(Vec::new(alloc)),
        }
    }

    /// The facts that hold now, by their numbers, rising.
    pub fn held(&self, alloc: Global) -> Result<Vec<u32>, AllocError>
        ensures { IfOk result (λ facts. AreJust (HoldsNow self.now) facts.items) }
    {
        let workflow = self.workflow();
        // what the workflow keeps of its facts and leaves: no fact past the count holds
        let _ = workflow.held();
        let _ = workflow.tree();
        self.list(alloc, Listed::Holding, workflow.facts().count())
    }

    /// The numbers of what is listed, which are below the count, rising.
    fn list(&self, alloc: Global, what: Listed, count: u32) -> Result<Vec<u32>, AllocError>
        requires { (n : ℕ) → IsListed self.now what n → n < count }
        ensures { IfOk result (λ numbers. AreJust (IsListed self.now what) numbers.items) }
    {
        let mut numbers = Vec::new(alloc);
        for number in 0..count {
            if self.is_listed(what, number) {
                numbers.push(number)?;
            }
        }
        Ok(numbers)
    }

    /// Whether the number is one of what is listed.
    fn is_listed(&self, what: Listed, number: u32) -> bool
        ensures { IsTrue result ↔ IsListed self.now what number }
    {
        match what {
            Listed::Acting => self.can_act(number),
            Listed::Left => self.can_do_aside(number),
            Listed::Holding => self.holds(number),
        }
    }
}
