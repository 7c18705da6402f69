//! What to look at in a workflow that is not refused: what is written there and changes nothing, and what cannot happen.
#![tactic(auto)]

mod constraints;
mod events;
mod facts;
mod finding;
mod findings;
mod flows;
mod goals;
mod isos;
mod kind;
mod labels;
mod leaves;
mod marks;
mod nops;
mod question;

pub use finding::Finding;
pub use findings::lint;
pub use kind::Kind;
