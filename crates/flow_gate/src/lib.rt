//! Gates: what performs the tasks of a run, and what each gate answers. A gate of your own is an `impl` of [`Gate`].
//! What a gate is asked and what comes of it stands in a run's history, whose types are handed on here.
#![tactic(auto)]

mod always_done;
mod gate;
mod note_gate;
mod table_gate;

pub use always_done::AlwaysDone;
pub use flow_model::{Call, Entry, FailEffect, Outcome, Step};
pub use gate::Gate;
pub use note_gate::NoteGate;
pub use table_gate::TableGate;
