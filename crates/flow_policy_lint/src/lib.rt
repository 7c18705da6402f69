//! What to look at in the policy of a case: what nobody may do, ties that no run can meet, and final events behind which a failure has
//! no way out.
#![tactic(auto)]

mod events;
mod findings;
mod heads;
mod last;
mod met;
mod pairs;
mod roles;
mod ties;

pub use findings::{PolicyFindings, lint_policy};
pub use heads::{Head, Word, heads_of};
