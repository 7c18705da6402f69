//! Where workers sleep that find nothing to do.
ghost use Rattle.flow_crew.specs.Moves.{IsBegun};

use crate::book::Book;
use crate::jobs::Begin;
use crate::moves::Move;
use crossbeam_utils::sync::{EventCount, Key};
use flow_gate::Gate;
use flow_turn::Job;
use std::sync::atomic::{AtomicBool, Ordering};

/// The idle, of whom at most one is called at a time. Who found a task calls one, for whom there may be another; who is called and
/// finds one calls the next. So all are soon at work where there is enough to do, and while one that was called is on its way, or
/// waits for its turn, those at work lose no time over it.
///
/// No task waits while a worker sleeps and nobody is on the way. A worker X that sleeps was counted among the idle, had its turn, in
/// which it took the call back (`answer`) before it looked, and was told to wait. Say that since then there is something to do, and
/// let Y have had the last turn. Y was not told to wait: it asks again, or has the run over and calls all, or found a task. Then it
/// calls, after its turn. Where it is the first since the call was last taken back, it wakes one, for X is counted. Where it
/// is not, another caller Z was, after X took the call back, so Z finds X counted too, and wakes a sleeper V (or X, if X did not
/// sleep yet). V has not taken the call back when Y finds it standing, so V's turn comes after Y's: V is on its way.
#[derive(Drop)]
pub(crate) struct Idle {
    asleep: EventCount,
    is_called: AtomicBool,
}

impl Idle {
    pub(crate) fn new() -> Idle {
        Idle {
            asleep: EventCount::new(),
            is_called: AtomicBool::new(false),
        }
    }

    /// Counts the caller among the idle, before it has the turn in which it learns whether it is. It sleeps by the key then, or drops it.
    pub(crate) fn count_in(&self) -> Key<'_> {
        self.asleep.prepare_wait()
    }

    /// Takes the call back, in the caller's turn and before it looks what there is to do.
    pub(crate) fn answer(&self) {
        self.is_called.store(false, Ordering::SeqCst);
    }

    /// Wakes one, unless one is called.
    pub(crate) fn call_one(&self) {
        if !self.is_called.load(Ordering::SeqCst) && !self.is_called.swap(true, Ordering::SeqCst) {
            self.asleep.notify_one();
        }
    }

    /// Wakes all, where the run is over.
    pub(crate) fn call_all(&self) {
        self.asleep.notify_all();
    }
}

/// The caller asks what to do, as by `Begin`, after it was counted among the idle.
pub(crate) struct AskWhenIdle<'i> {
    pub(crate) idle: &'i Idle,
}

impl<'i, G: Gate + Drop> Job<Book<G>> for AskWhenIdle<'i> {
    type Answer = Move;

    ghost does = { λ _ run by move after. IsBegun run by move after };

    fn run(self, book: &mut Book<G>, by: u32) -> Move {
        let AskWhenIdle { idle } = self;
        idle.answer();
        Begin.run(book, by)
    }
}
