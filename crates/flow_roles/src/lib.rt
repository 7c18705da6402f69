//! The desk of a run: users take tasks at it, under a policy.
#![tactic(auto)]

mod answer;
mod desk;
mod refusal;
mod single;
mod take;

pub use desk::Desk;
pub use flow_policy::{Duty, Policy, PolicyRefusal, policy_of, read_duties};
pub use refusal::{Denied, DutyRefusal};
pub use single::law_desk_answers_are_single;
