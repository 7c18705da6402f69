//! A lock that is given in turns, over a value that keeps the list of what was done to it. Each caller
//! has a pass, which knows what its caller has seen of the list and what it has added.
#![tactic(auto)]

mod entrance;
mod kept;
mod lock;
mod numbers;
mod pass;
mod rule;
mod turn;
mod view;

pub use kept::{Job, Kept};
pub use lock::{NewRefusal, TurnLock};
pub use numbers::law_numbers_are_new;
pub use pass::Pass;
