//! One run of a workflow: its history, entry by entry, each of them legal.
#![tactic(auto)]

mod ask;
mod asked;
mod asks;
mod claim;
mod end;
mod leaf;
mod make;
mod next;
mod record;
mod refusal;
mod run;
mod single;

pub use ask::{Told, play};
pub use asked::Asked;
pub use end::End;
pub use flow_ask::{Answer, Ask, Made, Refusal};
pub use flow_model::{Call, FailEffect};
pub use next::Next;
pub use refusal::{CommitRefusal, DoRefusal, PostRefusal, RewindRefusal, TakeRefusal};
pub use run::Core;
pub use single::{law_answers_are_single, law_callers_made_all};
