//! Reasons of a case as people read them: a constraint in its words, why a task waits as an object, and what is wrong with a policy.
#![tactic(auto)]

mod constraint;
mod object;
mod policy;
mod wanted;

pub use constraint::constraint_words;
pub use object::push_reason_members;
pub use policy::{policy_place, push_policy_fault};
