//! Whether an option has an execution: one as its sample, or a circle as the reason why there is none (Excise,
//! after Davulcu, Kifer, Ramakrishnan and Ramakrishnan 1998).
#![tactic(auto)]

mod by_items;
mod circle;
mod gathering;
mod item;
mod items;
mod left_leaves;
mod order;
mod sample;

pub use circle::Circle;
pub use sample::{ExciseRefusal, excise};
