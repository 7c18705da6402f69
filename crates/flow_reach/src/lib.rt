//! Whether some execution that goes on from a journal has a leaf.
#![tactic(auto)]

mod reach;
mod sets;

pub use reach::may_still_come;
