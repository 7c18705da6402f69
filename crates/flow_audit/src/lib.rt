//! Many journals checked against one workflow by several workers.
#![tactic(auto)]

mod audits;
mod checker;
mod cuts;
mod finding;
mod single;
mod trace_checker;

pub use audits::{audit, audit_traces};
pub use checker::Checker;
pub use cuts::{MOST_JOURNALS, journals};
pub use finding::Finding;
pub use single::law_findings_are_single;
pub use trace_checker::TraceChecker;
