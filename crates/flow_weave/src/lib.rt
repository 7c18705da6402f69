//! Options made into plans.
#![tactic(auto)]

mod weaving;

pub use weaving::weave;
