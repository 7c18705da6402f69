//! The top call: from words and bytes to bytes and a status.
#![tactic(auto)]

mod audit;
mod call;
mod check;
mod drive;
mod duty;
mod generated;
mod large;
mod run;
mod trace;
mod verify;

pub use call::{answer_alone, flow};
pub use flow_front::Status;
