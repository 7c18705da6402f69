//! Why, in words: what is wrong with a workflow's text, and which constraints contradict each other.
#![tactic(auto)]

mod conflict_words;
mod faults;
mod hint_words;
mod json;
mod leaf_places;
mod refusal_words;
mod rule_words;
mod source;
mod spots;
mod telling;
mod tokens;

pub use conflict_words::push_rule;
pub use faults::{push_fault, push_hint, push_near_in};
pub use json::{push_fault_members, push_met_member, push_refusal};
pub use leaf_places::places_of_leaf;
pub use rule_words::{WrittenRule, written_rules};
pub use source::script_of;
pub use spots::{push_met, push_place};
pub use telling::{Form, explain, explain_script, explain_stop, explain_uncompiled};
pub use tokens::symbol_at;
