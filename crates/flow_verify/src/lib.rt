//! Whether every execution of a workflow meets a property, and whether a constraint changes anything.
#![tactic(auto)]

mod answers;
mod execution;
mod refusal;
mod verification;

pub use answers::{Redundancy, Verified};
pub use refusal::VerifyRefusal;
pub use verification::{redundant, verify};
