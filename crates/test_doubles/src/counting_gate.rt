ghost use Rattle.std.specs.Prelude.{◌≡◌, true};
ghost use Rattle.flow_gate.specs.Gate.{is_same};
ghost use Rattle.flow_gate.specs.NoteGate.{announced};

use flow_gate::{Gate, NoteGate};
use flow_model::{Call, Outcome};
use std::sync::atomic::{AtomicU32, Ordering};

/// Each task ends as its event's declaration announces, and how many there were is counted.
#[derive(Drop)]
pub struct CountingGate {
    asked: AtomicU32,
}

impl CountingGate {
    /// A gate that was asked for no task.
    pub fn new() -> CountingGate {
        CountingGate {
            asked: AtomicU32::new(0),
        }
    }

    /// How many tasks it was asked for.
    pub fn asked(&self) -> u32 {
        self.asked.load(Ordering::SeqCst)
    }
}

impl Gate for CountingGate {
    ghost gives = { λ call answer. is_same answer (announced call) };

    fn perform(&self, call: Call) -> Outcome
        ensures gives { is_same result (announced call) ≡ true }
        ensures announced { result ≡ announced call }
    {
        self.asked.fetch_add(1, Ordering::SeqCst);
        NoteGate.perform(call)
    }
}
