//! What is asked of a run and what it answers, as data: the one vocabulary of a run, of what keeps it and of what hands out its tasks.
#![tactic(auto)]

mod ask;
mod made;
mod refusal;

pub use ask::{Ask, Look};
pub use made::{Answer, Made};
pub use refusal::Refusal;
