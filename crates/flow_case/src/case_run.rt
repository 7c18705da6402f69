use crate::ruled::RuledRun;
use flow_core::Core;

/// The run of a case, under a policy or under none.
#[derive(Drop)]
pub enum CaseRun {
    /// Without a policy: anybody may do anything, and nothing is final.
    Free(Core),
    UnderPolicy(RuledRun),
}
