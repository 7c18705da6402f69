//! The trail of a case: who made each entry of its history and when, a line an entry, each sealed by the one before it.
#![tactic(auto)]

mod append;
mod checked;
mod compare;
mod due;
mod guess;
mod line;
mod open;
mod pieces;
mod print;
mod read;
mod read_all;
mod refusal;
mod seal;
mod spelling;
mod tell;
mod trail;

pub use checked::{Verified, verify};
pub use due::Due;
pub use line::{About, Remark, Telling, TrailEnd, TrailLine};
pub use open::UnopenedTrail;
pub use read::{ReadTrail, read_trail};
pub use refusal::{OpenRefusal, ReadRefusal, TellRefusal, VerifyRefusal};
pub use seal::first_seal;
pub use trail::{MOST_BYTES, Trail};
