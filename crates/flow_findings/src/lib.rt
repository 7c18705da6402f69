//! The lines that the program writes of a workflow that it does not run: refusals, counts, traces, many journals and
//! properties.
#![tactic(auto)]

mod audit;
mod check;
mod compile_refusal;
mod expand_refusal;
mod judgement;
mod refusal_line;
mod refused;
mod text_refusal;

pub use audit::print_audit;
pub use check::print_check;
pub use judgement::{print_checked, print_redundancy, print_verified};
pub use refused::{Refused, print_refused};
