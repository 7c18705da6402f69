//! What a case replies to the lines of people, in words or as JSON.
#![tactic(auto)]

mod asked;
mod asking;
mod begun;
mod book;
mod details;
mod form;
mod lines;
mod looks;
mod made;
mod plan;
mod refused;
mod reply;
mod ticks;
mod todo;
mod who;

pub use book::{Book, Speaker, Told};
pub use form::Form;
pub use reply::{Outcome, Reply, respond};
pub use todo::{begin_line, idle_lines};
