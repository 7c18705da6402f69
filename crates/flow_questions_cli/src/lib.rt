//! Questions to a workflow and its policy, and what to look at in the policy, from their texts: what is told in words, and as JSON.
#![tactic(auto)]

mod asked;
mod finding_json;
mod finding_words;
mod json;
mod lines;
mod names;
mod policy;
mod policy_places;
mod stop;
mod subject;
mod words;

pub use asked::{Form, tell_alone, tell_staffed};
pub use flow_front::{Output, Status};
pub use policy::tell_policy;
pub use stop::QuestionStop;
