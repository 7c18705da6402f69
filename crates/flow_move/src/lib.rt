//! A history that is made again under another text, by the names of its tasks and its users.
#![tactic(auto)]

mod again;
mod barred;
mod labels;
mod new_names;
mod on_leaf;
mod one;
mod unmoved;

pub use again::make_again;
pub use new_names::{NewNames, Rename, new_labels};
pub use unmoved::{Cause, Unmoved};
