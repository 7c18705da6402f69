//! The laws of goals and of legal histories, each the contract of a function with an empty body.
#![tactic(auto)]

mod circles;
mod events;
mod folding;
mod following;
mod histories;
mod orders;
mod ready_runs;
mod resolutions;
mod ways;

pub use circles::law_circle_exactly_without_trace;
pub use events::law_unique_events_by_least_goal;
pub use folding::law_folded_resolutions;
pub use following::law_orders_may_follow;
pub use histories::{law_legal_states_extend, law_never_at_a_loss, law_new_epochs_spare};
pub use orders::law_pairs_suffice_for_orders;
pub use ready_runs::law_ready_runs_are_traces;
pub use resolutions::law_traces_are_of_resolutions;
pub use ways::{law_options_cover_good_traces, law_ways_decide_constraints};
