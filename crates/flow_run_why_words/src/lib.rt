//! Leaves of a run, lines of a session and of a journal, policies and queries in words and as objects of JSON: why a leaf waits, what is
//! wrong with a line, and where.
#![tactic(auto)]

mod asked;
mod bad;
mod leaves;
mod line_words;
mod lines;
mod policy_words;
mod reason_json;
mod reason_words;
mod refused_lines;
mod second;
mod second_json;

pub use bad::{bad_object, bad_words};
pub use leaves::{push_meant, push_waiting};
pub use lines::{Line, line_at, lines_said, without_divider};
pub use refused_lines::{push_no_user, push_refused};
pub use second::second_words;
pub use second_json::second_object;
