//! The normal forms of rules, and the ways in which leaves meet them.
#![tactic(auto)]

mod asked;
mod conjunction;
mod connective;
mod event_leaves;
mod lanes;
mod leaf_table;
mod narrow;
mod narrowed;
mod normal;
mod normal_form;
mod only;
mod order_set;
mod presence;
mod room;
mod standing;
mod way_count;
mod way_lists;

pub use conjunction::Conjunction;
pub use event_leaves::{forget_events, leaf_events, note_events};
pub use lanes::Lanes;
pub use leaf_table::LeafEvents;
pub use narrowed::Narrowed;
pub use normal::Nnf;
pub use normal_form::nnf;
pub use order_set::OrderSet;
pub use presence::Presence;
pub use way_count::{WayCount, count_ways};
pub use way_lists::ways;
