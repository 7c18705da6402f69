//! One step of a case that its caller keeps: the workflow's text, the history so far and a line come in as bytes, and what is to be kept
//! besides goes out.
#![tactic(auto)]

mod follow;
mod give;
mod json;
mod quote;
mod record;
mod stepped;
mod steps;
mod stored;
mod texts;

pub use record::{RECORD, record_of};
pub use stepped::Stepped;
pub use steps::step;
pub use stored::law_what_is_stored_is_legal;
