//! The grammar of workflow texts and queries, the machine that reads them, and the laws between the two.
#![tactic(auto)]

mod cases;
mod names;
mod prints;
mod queries;
mod scripts;

pub use cases::{worked_depths, worked_refusals, worked_text};
pub use names::law_names_have_roles;
pub use prints::law_prints_are_read_back;
pub use queries::{law_queries_are_read, law_queries_are_well_made};
pub use scripts::{law_scripts_are_read, law_scripts_are_well_made};
