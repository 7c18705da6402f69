//! The calls of `flowdesk` on event logs: which cases keep to a workflow, and pictures with how many passed each box.
#![tactic(auto)]

mod counted;
mod told;

pub use counted::draw_log;
pub use told::{log_command, log_file, with_columns};
