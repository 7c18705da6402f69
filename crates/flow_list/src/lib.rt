//! Many cases at a glance: a line for each, with how it stands, what may be begun in it by whom, and what is out of whom since when.
#![tactic(auto)]

mod files;
mod filter;
mod json;
mod line;
mod span;
mod steps;
mod taken;
mod tasks;
mod words;

pub use files::line_of_files;
pub use filter::{Filter, is_shown};
pub use flow_case_state::CaseState;
pub use json::{damaged_object, line_object};
pub use line::{CaseLine, case_line};
pub use span::{seconds_in, state_called};
pub use steps::{LeafName, Steps};
pub use taken::TaskOut;
pub use tasks::{Beginning, Tasks};
pub use words::{damaged_words, line_words, name_of};
