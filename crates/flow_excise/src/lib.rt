//! Options that have no execution are dropped, each with a circle as its reason (Excise, after Davulcu,
//! Kifer, Ramakrishnan and Ramakrishnan 1998).
#![tactic(auto)]

mod block;
mod compilation;
mod folded_choices;
mod limits;
mod refusal;
mod sieve;
mod sifted;
mod tally;
mod unseen;

pub use compilation::compile;
pub use flow_plan::{Compiled, Counts};
pub use flow_sample::{Circle, ExciseRefusal, excise};
pub use refusal::{CompileRefusal, Dropped};
