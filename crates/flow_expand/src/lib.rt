//! A workflow as it is written made into one that is compiled: sub-workflows put in place, names numbered, sizes
//! counted, unique events.
#![tactic(auto)]

mod assembly;
mod calls;
mod chain;
mod constraints;
mod directory;
mod events;
mod expansion;
mod fact_numbers;
mod laid_goal;
mod lay;
mod layout;
mod leaves;
mod numbered_goal;
mod rule_names;
mod settlement;
mod size;

pub use constraints::rule_of;
pub use expansion::expand;
pub use flow_workflow::{ExpandRefusal, Part, Workflow};
