//! Why: reasons as data. Which constraints keep a list of leaves from being the front of a good trace.
#![tactic(auto)]

mod constraints;
mod contradiction;
mod fronts;

pub use contradiction::why_not;
pub use flow_conflict::Conflict;
