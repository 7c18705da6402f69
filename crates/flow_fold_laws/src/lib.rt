//! The laws of options whose choices are folded, each the contract of a function with an empty body.
#![tactic(auto)]

mod avoiding;
mod beginning;
mod circles;
mod following;
mod options;
mod orders;
mod rows;
mod runs;
mod shared;
mod unfolding;
mod ways;

pub use avoiding::{law_folded_executions_avoid, law_leaves_may_begin_together};
pub use beginning::law_may_begin_by_one_pass;
pub use circles::law_folded_circle_exactly_without_trace;
pub use following::law_folded_options_let_follow;
pub use options::law_folded_options_cover_good_traces;
pub use orders::law_two_suffice_in_folded;
pub use rows::{law_avoided_in_one_pass, law_folded_rows_tell_readiness, law_settled_in_one_pass};
pub use runs::{law_folded_runs_are_traces, law_folded_runs_unfold};
pub use shared::law_folded_choices_are_shared;
pub use unfolding::law_options_unfold;
pub use ways::law_folded_ways_decide_constraints;
