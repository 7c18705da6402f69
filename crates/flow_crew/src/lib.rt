//! A run by workers: a book with a lawful history, whose tasks a gate performs.
#![tactic(auto)]

mod book;
mod crew;
mod done;
mod entries;
mod idle;
mod jobs;
mod moves;
mod single;
mod standing;
mod tracked;

pub use book::Book;
pub use crew::run_crew;
pub use done::law_done_runs_commit;
pub use flow_core::End;
pub use jobs::{Begin, Post, PostAndBegin};
pub use moves::Move;
pub use single::law_turns_are_single;
