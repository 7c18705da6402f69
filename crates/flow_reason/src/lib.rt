//! Why a leaf of a run is not taken or done now: reasons as data, the first that holds.
#![tactic(auto)]

mod bad;
mod claimed;
mod compiled;
mod done_by;
mod facts;
mod given_up;
mod in_the_way;
mod isolated;
mod leaf;
mod reason;
mod sides;
mod words;

pub use bad::{Bad, why_bad};
pub use leaf::why_leaf;
pub use reason::Reason;
pub use sides::leaves_before;
