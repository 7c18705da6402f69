//! The calls of `flowdesk` on folders of cases.
#![tactic(auto)]

mod cases;
mod exported;
mod library;
mod listed;
mod office;
mod paged;
mod read;
mod unseen;

pub use exported::{export, export_command};
pub use listed::{list, list_command};
pub use paged::{is_office, write_office};
