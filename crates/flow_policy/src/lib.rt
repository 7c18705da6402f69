//! The policy of a shift: which users have which roles, which roles are allowed which events, and which events are separate or bound.
//! And the lines of its users' sessions.
#![tactic(auto)]

mod draft;
mod duty;
mod event_table;
mod laws;
mod mention;
mod name;
mod policy;
mod refusal;
mod role_table;
mod staff;
mod stage;
mod symbol;
mod tie;
mod tie_table;

pub use duty::{Duty, read_duties};
pub use laws::law_policies_are_single;
pub use name::is_name;
pub use policy::{Policy, policy_of};
pub use refusal::PolicyRefusal;
pub use tie::Tie;
