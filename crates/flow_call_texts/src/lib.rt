//! The calls of `flowdesk` on texts of workflows: what is wrong with one, what to look at, and its picture.
#![tactic(auto)]

mod drawn;
mod explained;
mod kept;
mod linted;

pub use drawn::{draw_file, draw_file_with, drawing_arguments};
pub use explained::{explain_command, explain_file};
pub use linted::{lint_command, lint_file};
