//! A case: its policy, which has rules besides duties, and its run under that policy, or under none.
#![tactic(auto)]

mod answer;
mod bar;
mod case_policy;
mod case_run;
mod given;
mod kind;
mod marks;
mod members;
mod rule_names;
mod ruled;
mod rules;
mod single;
mod split;
mod text_refusal;
mod users;

pub use bar::Bar;
pub use case_policy::{CasePolicy, case_policy_of};
pub use case_run::CaseRun;
pub use flow_policy::PolicyRefusal;
pub use ruled::RuledRun;
pub use rules::CaseRules;
pub use single::law_case_answers_are_single;
pub use text_refusal::CasePolicyRefusal;
pub use users::Users;
