//! Laws of what the top call writes.
#![tactic(auto)]

mod laws;

pub use laws::{
    law_done_large_runs_are_committed, law_done_runs_are_committed, law_outputs_are_single,
};
