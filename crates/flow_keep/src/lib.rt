//! A run whose history is kept in a file, entry by entry.
#![tactic(auto)]

mod append;
mod asked;
mod body;
mod calls;
mod close;
mod keep;
mod open;
mod refusal;
mod replay;
mod slot;
mod told;

pub use keep::Keep;
pub use open::Unopened;
pub use refusal::{KeepRefusal, KeptRefusal};
pub use replay::read_kept;
pub use told::law_records_tell_entries;
