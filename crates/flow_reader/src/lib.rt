//! The reader of workflow texts and queries: the machine of the grammar, stepped once a token.
#![tactic(auto)]

mod arguments;
mod depth;
mod goal_stack;
mod goals;
mod queries;
mod reading;
mod reserved_words;
mod rule_levels;
mod rule_stack;
mod rules;
mod scripts;
mod symbol;
mod tokens;

pub use reading::{read_query, read_script};
pub use symbol::Symbol;
pub use tokens::symbol_of;
