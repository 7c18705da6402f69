//! A run that is driven by a session and kept in a file, entry by entry.
#![tactic(auto)]

mod asked;
mod begin;
mod call;
mod replies;
mod say;
mod session;
mod status;
mod words;

pub use call::flowkeep;
pub use flow_front::Status;
pub use replies::{Cut, reply_to_all};
pub use status::KeepStatus;
