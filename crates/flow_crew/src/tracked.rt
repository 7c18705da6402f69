ghost use Rattle.std.specs.Prelude.{◌≡◌, ◌↔◌, [], IsTrue, MatchOption};
ghost use Rattle.flow_model.specs.Run.{IsLegal};
ghost use Rattle.flow_core.specs.Run.{schema};
ghost use Rattle.flow_crew.specs.Ends.{IsEnd, HasNoEnd};
ghost use Rattle.flow_crew.specs.Moves.{IsBegun, IsPosted, IsOut};

use crate::entries::{go_on, tell};
use crate::moves::Move;
use crate::standing::{look, stand};
use flow_core::{Core, End, Next};
use flow_model::{Call, Outcome};
use std::marker::Model;

/// A run and what it came to. So the leaves are looked at once an entry at most, and not at each call.
#[derive(Drop)]
pub(crate) struct Tracked {
    core: Core,
    /// What the run does next, where it was looked for since the last entry.
    next: Option<Next>,
    end: Option<End>,
}

impl Model for Tracked {
    ghost use Rattle.flow_core.specs.Run.{Run, run_code};

    ghost Value = { Run };

    ghost coded = { run_code };

    ghost use Rattle.flow_crew.specs.Invariant.{IsTracked};

    ghost view = { λ tracked. tracked.core };

    ghost invariant = { λ tracked. IsTracked tracked.core tracked.next tracked.end };
}

impl Tracked {
    /// A run that has not begun.
    pub(crate) fn new(core: Core) -> Tracked
        requires { core.history ≡ [] }
        ensures run { result ≡ core }
        ensures legal { IsLegal (schema result) result.limit result.history }
    {
        let (next, end) = stand(&core, None);
        Tracked { core, next, end }
    }

    /// What the caller is to do. Where nothing is to be waited for, the run goes on by one entry.
    pub(crate) fn begin(&mut self, by: u32) -> Move
        ensures begun { IsBegun self.old by result self.new }
        ensures legal { IsLegal (schema self.new) self.new.limit self.new.history }
    {
        if self.end.is_some() {
            return Move::Over;
        }
        let next = look(&mut self.core, self.next);
        self.next = Some(next);
        if let Next::Wait(claim) = next {
            return Move::Wait(claim);
        }
        let usual = go_on(&mut self.core, next, by);
        let (next, end) = stand(&self.core, None);
        self.next = next;
        self.end = end;
        if end.is_some() { Move::Over } else { usual }
    }

    /// Tells the outcome of a task. After a kept failure the run goes back at once, where it can.
    pub(crate) fn post(&mut self, call: Call, outcome: Outcome, by: u32)
        ensures posted { IsPosted self.old call outcome by self.new }
        ensures legal { IsLegal (schema self.new) self.new.limit self.new.history }
    {
        if self.end.is_some() {
            return;
        }
        if !is_out(&self.core, call) {
            return;
        }
        let failed = tell(&mut self.core, call, outcome, by);
        let (next, end) = stand(&self.core, failed);
        self.next = next;
        self.end = end;
    }

    /// What the run came to, if it has come to an end.
    pub(crate) fn verdict(&self) -> Option<End>
        ensures { MatchOption result (HasNoEnd self.now) (IsEnd self.now) }
    {
        self.end
    }

    /// The run.
    pub(crate) fn core(&self) -> &Core
        ensures { result.now ≡ self.now }
    {
        &self.core
    }

    /// The run alone.
    pub(crate) fn into_core(self) -> Core
        ensures { result ≡ self }
    {
        let Tracked {
            core,
            next: _,
            end: _,
        } = self;
        core
    }
}

/// Whether the call is that of a claim which is not answered.
fn is_out(core: &Core, call: Call) -> bool
    ensures { IsTrue result ↔ IsOut core.now call }
{
    core.call_of(call.claim) == Some(call)
}
