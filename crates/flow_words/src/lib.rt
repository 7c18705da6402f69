//! The words of a call, read by one command of `clap`, and how the program is called.
#![tactic(auto)]

mod command;
mod help;
mod purpose;
mod request;
mod usage;

pub use help::{HELP, VERSION};
pub use purpose::{Purpose, law_one_purpose, purpose_of};
pub use request::{Mode, Request};
pub use usage::print_usage;
