//! Which cases of an event log keep to a workflow, and where each other one leaves it.
#![tactic(auto)]

mod cause;
mod csv_form;
mod findings;
mod json_form;
mod judge;
mod kinds;
mod lines;
mod page;
mod sums;
mod text_form;
mod verdicts;

pub use cause::{Cause, Finding, find_cause};
pub use csv_form::write_csv;
pub use findings::Findings;
pub use json_form::write_json;
pub use judge::{Judge, Verdict};
pub use page::{Answered, Labels};
pub use sums::{Sums, sums_of};
pub use text_form::write_text;
pub use verdicts::judge_all;
