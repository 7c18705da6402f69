//! What to look at in a workflow, in words: a line for each finding, with its place in the text.
#![tactic(auto)]

mod json;
mod places;
mod telling;
mod things;
mod words;

pub use telling::lint_text;
