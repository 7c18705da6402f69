//! What people say of a run by the names of its tasks: commands, the leaves and claims that they mean, and what is to be done.
#![tactic(auto)]

mod claims;
mod command;
mod leaves;
mod means;
mod number;
mod read;
mod refusal;
mod scout;
mod sequence;
mod tidy;
mod todo;
mod verb;

pub use command::{ClaimRef, Command, StepRef, TaskRef};
pub use means::{claim_meant, leaf_of_step, leaf_of_task, meaning};
pub use read::read_command;
pub use refusal::{CommandRefusal, NameRefusal};
pub use scout::{steps_to_take, waits_for_step};
pub use tidy::tidy_steps;
pub use todo::{OutTask, State, Todo, todo_of};
pub use verb::Verb;
