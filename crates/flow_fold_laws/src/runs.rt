ghost use Rattle.flow_fold_laws.specs.FoldedRuns.{FoldedRunsUnfold, CompleteRunsUnfold, FoldedCompleteRunsAreTraces, FoldedFrontsAreReady, FoldedRunsExtend};

/// The ready runs of an option are those of its unfoldings, and so are the complete ones.
#[tactic(auto, using(crate::proofs::UnfoldedRuns::folded_runs_unfold))]
pub fn law_folded_runs_unfold()
    ensures runs { FoldedRunsUnfold }
    ensures complete { CompleteRunsUnfold }
{}

/// They are the fronts of its executions, and the complete ones are its executions.
#[tactic(auto, using(crate::proofs::FoldedRunsLemmas::folded_fronts_are_ready, crate::proofs::FoldedRunsLemmas::folded_runs_extend))]
pub fn law_folded_runs_are_traces()
    ensures complete { FoldedCompleteRunsAreTraces }
    ensures fronts { FoldedFrontsAreReady }
    ensures extend { FoldedRunsExtend }
{}
