//! Worked cases of the laws: four small workflows, and what the laws say of each.
#![tactic(auto)]

mod either_order;
mod isolation;
mod knot;
mod plain;

pub use either_order::{case_either_order_has_two_options, case_either_order_one_at_a_time};
pub use isolation::case_isolation_keeps_others_out;
pub use knot::{case_knot_has_a_circle, case_knot_has_four_options, case_knot_is_consistent};
pub use plain::case_plain_goes_side_by_side;
