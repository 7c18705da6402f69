//! Workflows made from a seed, for runs of any size, and what holds of each of them.
#![tactic(auto)]

mod draws;
mod generating;
mod goals;
mod kind;
mod names;
mod rules;
mod script;
mod texts;
mod workflows;

pub use generating::generate;
pub use texts::law_generated_texts_are_read;
pub use workflows::{
    law_generated_leaves_are_events, law_generated_workflows_are_compiled,
    law_generated_workflows_are_consistent, law_generated_workflows_are_expanded,
    law_generated_workflows_are_within_limits,
};
