//! A session of users at a desk: what is replied to each line, who calls from then on, and the report.
#![tactic(auto)]

mod replies;
mod session;
mod single;

pub use replies::{reply_to, reply_to_all};
pub use session::drive;
pub use single::law_user_sessions_are_single;
