//! What is wrong at a place of a text: its line and column, what stands there, and a hint.
#![tactic(auto)]

mod fault;
mod hint;
mod keywords;
mod met;
mod names;
mod near;
mod spot;

pub use fault::{Fault, fault_of};
pub use hint::Hint;
pub use met::{Met, met_at};
pub use names::near_name;
pub use near::is_near;
pub use spot::{Spot, spot_of};
