//! The laws of runs by folded options, of takers, of folds and of numbers, each the contract of a
//! function with an empty body.
#![tactic(auto)]

mod folds;
mod histories;
mod numbers;
mod takers;

pub use folds::law_folds_of_numbered_goals;
pub use histories::{
    law_legal_histories_are_the_same_in_folded, law_legal_states_extend_in_folded,
    law_never_at_a_loss_in_folded,
};
pub use numbers::{law_dropped_options_are_by_number, law_options_are_by_number};
pub use takers::law_claims_that_are_out_have_takers;
