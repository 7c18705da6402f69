//! A text of words and JSON that is written a piece at a time.
#![tactic(auto)]

mod columns;
mod json;
mod members;
mod writer;

pub use writer::Writer;
