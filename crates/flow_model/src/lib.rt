//! What a workflow means: goals, executions, constraints, histories.
//!
//! The definitions stand in `specs/`, one module a concept. This crate has no logic: here are
//! only the plain data types that the definitions share with the code, and the limits.
#![tactic(auto)]

mod history;
mod labels;
mod limits;
mod operators;

pub use history::{Call, Entry, FailEffect, Outcome, Step};
pub use labels::{Deed, Label, Note};
pub use limits::{
    GREATEST_BULK, GREATEST_DEPTH, GREATEST_INPUT, GREATEST_SEED, GREATEST_SIZE, MOST_ENTRIES,
    MOST_FLOWS, MOST_LEAVES, MOST_LINES, MOST_OPTIONS, MOST_RESOLUTIONS, MOST_RULE_NAMES,
    MOST_WORKERS,
};
pub use operators::{Connective, Operator};
