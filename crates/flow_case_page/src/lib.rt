//! The page of a case: where it stands, what may be begun, what is out, its tasks, its history and its constraints, as data of a page.
#![tactic(auto)]

mod begun;
mod constraints;
mod history;
mod notes;
mod out;
mod shown;
mod tasks;
mod undone;
mod words;

pub use history::history_rows;
pub use notes::leaf_notes;
pub use shown::{CaseShown, case_page};
