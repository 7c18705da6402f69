//! A least conflict: demands that cannot be met together, each of which is needed for that. It is found by halves
//! (QuickXplain, after Junker 2004), and then each member is left out once.
#![tactic(auto)]

mod judge;
mod least;
mod lists;
mod pruning;
mod search;

pub use judge::{Judge, Judged};
pub use least::least_conflict;
pub use pruning::Conflict;
