//! A case that is asked: its run, kept entry by entry, and its trail, which says of each entry who made it and when.
#![tactic(auto)]

mod ask;
mod asker;
mod case;
mod keep_last;
mod line;
mod look;
mod resume;
mod tell;
mod tick;

pub use asker::Asker;
pub use case::Case;
pub use line::{step_words, task_name};
pub use resume::Unresumed;
