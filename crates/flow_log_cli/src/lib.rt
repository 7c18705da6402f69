//! `flowdesk log`, as a call over values: which cases of an event log keep to a workflow, and where each other one leaves it.
#![tactic(auto)]

mod first_numbers;
mod journals;
mod judge;
mod passing;
mod renaming;
mod source;
mod stop;
mod telling;
mod vocabulary;

pub use journals::journal_of;
pub use judge::WorkflowJudge;
pub use passing::passing_cases;
pub use renaming::MapRefusal;
pub use source::workflow_of;
pub use stop::LogStop;
pub use telling::{Form, LogCall, Told, tell_log, tell_log_with_key, write_answer};
