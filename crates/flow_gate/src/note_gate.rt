ghost use Rattle.std.specs.Prelude.{◌≡◌, true};
ghost use Rattle.flow_gate.specs.Gate.{is_same};
ghost use Rattle.flow_gate.specs.NoteGate.{announced};

use crate::gate::Gate;
use flow_model::{Call, Note, Outcome};

/// Each task ends as its event's declaration announces.
#[derive(Clone, Copy)]
pub struct NoteGate;

impl Gate for NoteGate {
    ghost gives = { λ call answer. is_same answer (announced call) };

    fn perform(&self, call: Call) -> Outcome
        ensures gives { is_same result (announced call) ≡ true }
        ensures announced { result ≡ announced call }
    {
        match call.note {
            Note::Done => Outcome::Done,
            Note::Fail => Outcome::Failed,
            Note::FailFirst(count) => {
                if call.attempt <= count {
                    Outcome::Failed
                } else {
                    Outcome::Done
                }
            }
        }
    }
}
