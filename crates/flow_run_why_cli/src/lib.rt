//! Why, of what stands behind a workflow, in words: why lines of a session are refused and leaves wait, where a journal stops being an
//! execution, and what is wrong with a policy or a query.
#![tactic(auto)]

mod duties;
mod journal;
mod query;
mod replies;
mod session;
mod stops;

pub use journal::explain_journal;
pub use query::explain_query;
pub use session::explain_session;
