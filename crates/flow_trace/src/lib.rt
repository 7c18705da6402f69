//! Whether a list of leaves is an execution of a workflow or the front of one, and where it stops being one.
#![tactic(auto)]

mod checked;
mod follow;
mod labels;
mod trace;

pub use checked::Checked;
pub use trace::check_trace;
