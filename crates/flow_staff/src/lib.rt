//! Who may take an event now, as the desk of a run decides it, asked without a desk; and the roles that a policy allows it.
#![tactic(auto)]

mod duties;
mod roles;

pub use duties::{denial, is_for_nobody, may_take};
pub use roles::roles_allowed;
