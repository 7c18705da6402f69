//! Stages of a workflow: how far its options are done, and who can take the events up to there. They are searched for what is asked.
#![tactic(auto)]

mod look;
mod nodes;
mod options;
mod question;
mod search;
mod staffing;
mod stage;
mod wanted;

pub use options::{Subject, search_options};
pub use question::Question;
pub use search::{Searched, Takers};
