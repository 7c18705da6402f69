//! How a case stands, and to whom duties leave what may be begun in it.
#![tactic(auto)]

mod state;
mod takers;

pub use state::{CaseState, state_free, state_under};
pub use takers::{is_for_none, takers_of};
