//! What a run tells of its claims and leaves: where it stands at each leaf, which claims are out, what put the leaves on its journal,
//! and what steps back took from it.
#![tactic(auto)]

mod claims;
mod flags;
mod past;
mod standing;
mod trail;
mod undone;

pub use claims::{Out, claims_out};
pub use standing::{Standing, standings};
pub use trail::{Doing, doings};
pub use undone::{TakenBack, taken_back};
