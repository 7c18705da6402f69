ghost use Rattle.flow_laws.specs.ReadyRuns.{CompleteRunsAreTraces, FrontsAreReady, ReadyRunsExtend};

/// The ready runs of an option are the fronts of its traces, and the complete ones are its traces in order.
#[tactic(auto, using(crate::proofs::ReadyRuns::fronts_are_ready, crate::proofs::CircleOrTrace::ready_runs_extend))]
pub fn law_ready_runs_are_traces()
    ensures complete { CompleteRunsAreTraces }
    ensures fronts { FrontsAreReady }
    ensures extend { ReadyRunsExtend }
{}
