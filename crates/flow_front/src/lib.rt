//! From a source to a workflow that answers can be given of: what is read, expanded and compiled, and each refusal with
//! its status and its text.
#![tactic(auto)]

mod input;
mod output;
mod prepared;
mod status;
mod stop;

pub use flow_findings::Refused;
pub use input::{Input, read_input};
pub use output::{Output, refuse, tell};
pub use prepared::{Prepared, compile_workflow, expand_script, prepare};
pub use status::Status;
pub use stop::Stop;
