//! What came of a command of a case, in plain words and as an object of JSON.
#![tactic(auto)]

mod made;
mod refused;
mod reply;

pub use refused::{print_refusal, refusal_word};
pub use reply::print_reply;
