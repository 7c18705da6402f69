//! Whether a list of events fits a workflow, where tests and updates of facts are filled in.
#![tactic(auto)]

mod case;
mod fact_places;
mod fitting;
mod found;
mod point;
mod points;
mod search;
mod turn;
mod verdict;

pub use fitting::fit;
pub use verdict::Fit;
