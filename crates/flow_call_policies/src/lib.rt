//! The calls of `flowdesk` on policies: questions to a workflow and its policy, and what to look at in the policy.
#![tactic(auto)]

mod questioned;

pub use questioned::{alone_command, answer, staffed_command};
