//! The forms of a workflow text: what its declarations, goal and constraints say.
#![tactic(auto)]

mod form;
mod query;
mod refusal;
mod rule_form;
mod script;

pub use flow_facts::{Const, Fact, Name, TextKey};
pub use flow_model::Note;
pub use form::Form;
pub use query::Query;
pub use refusal::{TextRefusal, Wanted};
pub use rule_form::RuleForm;
pub use script::{Decl, Script, facts_key, names_key};
