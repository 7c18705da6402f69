ghost use Rattle.std.specs.Prelude.{◌≡◌, true, [], MatchOption};
ghost use Rattle.flow_crew.specs.Ends.{IsEnd, HasNoEnd};
ghost use Rattle.flow_crew.specs.Invariant.{IsByWorkers};
ghost use Rattle.flow_crew.specs.Moves.{IsBegun, IsPosted, IsContinued};

use crate::moves::Move;
use crate::tracked::Tracked;
use flow_core::{Core, End};
use flow_gate::Gate;
use flow_model::{Call, Outcome};
use std::marker::Model;

/// A run by workers, and the gate that performs its tasks, which may be lent. It keeps that the history is one that such
/// workers may make. A lock may keep it, and then `Begin` and `Post` are what is done with it in turns.
#[derive(Drop)]
pub struct Book<G: Gate> {
    pub(crate) tracked: Tracked,
    pub(crate) gate: G,
}

impl<G: Gate> Model for Book<G> {
    ghost use Rattle.flow_core.specs.Run.{Run, run_code};

    ghost Value = { Run };

    ghost coded = { run_code };

    ghost use Rattle.flow_crew.specs.Invariant.{IsByWorkers};

    ghost view = { λ book. book.tracked };

    ghost invariant = { λ book. IsByWorkers G.gives book.tracked };
}

impl<G: Gate> Book<G> {
    /// A book of a run that has not begun.
    pub fn new(core: Core, gate: G) -> Book<G>
        requires { core.history ≡ [] }
        ensures { result ≡ core }
    {
        Book {
            tracked: Tracked::new(core),
            gate,
        }
    }

    /// What the caller is to do. Where nothing is to be waited for, the run goes on by one entry.
    pub fn begin(&mut self, by: u32) -> Move
        ensures { IsBegun self.old by result self.new }
    {
        self.tracked.begin(by)
    }

    /// Tells the outcome of a task. After a kept failure the run goes back at once, where it can.
    pub fn post(&mut self, call: Call, outcome: Outcome, by: u32)
        requires { G.gives call outcome ≡ true }
        ensures { IsPosted self.old call outcome by self.new }
    {
        self.tracked.post(call, outcome, by);
    }

    /// Performs all that is left, tasks of claims that are out among it.
    pub fn finish(&mut self, by: u32) -> End
        ensures end { IsEnd self.new result }
        ensures continued { IsContinued self.old by self.new }
    {
        // its history is no longer than the limit
        let _ = self.core();
        loop {
            let call = match self.begin(by) {
                Move::Perform(call) => call,
                Move::Went => continue,
                Move::Wait(claim) => self.core().call_of(claim).unwrap(),
                Move::Over => return self.verdict().unwrap(),
            };
            let outcome = self.perform(call);
            self.post(call, outcome, by);
        }
    }

    /// Has the gate perform the task of a call.
    fn perform(&self, call: Call) -> Outcome
        ensures { G.gives call result ≡ true }
    {
        self.gate.perform(call)
    }

    /// What the run came to, if it has come to an end.
    pub fn verdict(&self) -> Option<End>
        ensures { MatchOption result (HasNoEnd self.now) (IsEnd self.now) }
    {
        self.tracked.verdict()
    }

    /// The run.
    pub fn core(&self) -> &Core
        ensures run { result.now ≡ self.now }
        ensures by_workers { IsByWorkers G.gives self.now }
    {
        self.tracked.core()
    }
}

impl<G: Gate + Drop> Book<G> {
    /// The run alone.
    pub fn into_core(self) -> Core
        ensures run { result ≡ self }
        ensures by_workers { IsByWorkers G.gives self }
    {
        let Book { tracked, gate: _ } = self;
        tracked.into_core()
    }
}
