//! A case that is only looked at, from the bytes of its files; and many of them, by several threads.
#![tactic(auto)]

mod all;
mod kept;
mod seen;
mod tellers;
mod texts;

pub use all::{Cases, all_lines};
pub use seen::{SeenCase, seen_case};
pub use texts::{SharedTexts, read_texts};
