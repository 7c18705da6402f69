//! Questions to a workflow and its policy: can one user have two events, and is there always somebody who may begin what may be begun.
#![tactic(auto)]

mod both;
mod manned;
mod never;
mod run;

pub use both::{Shared, alone};
pub use manned::{Manning, staffed};
