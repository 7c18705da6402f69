//! A workflow with its sub-workflows in place: events and facts by their numbers, a goal with labels, and rules on its
//! events; and why there is none.
#![tactic(auto)]

mod label;
mod named_events;
mod names;
mod numbered;
mod refusal;
mod rule;
mod shorthands;
mod table;
mod workflow;

pub use label::{push_fact_after, push_label, push_leaf_label};
pub use named_events::events_of;
pub use names::names_event;
pub use numbered::{Key, Numbered};
pub use refusal::{ExpandRefusal, Part};
pub use rule::Rule;
pub use shorthands::{needs, precedes};
pub use table::FactTable;
pub use workflow::Workflow;
