ghost use Rattle.flow_fold_laws.specs.FoldedRuns.{OutsideKeepsSequence, FoldedCirclesExcludeTraces, FoldedTraceOrCircle};

/// An option has a circle outside its choices exactly where it has no execution.
#[tactic(auto, using(crate::proofs::OutsideChoices::folded_trace_or_circle))]
pub fn law_folded_circle_exactly_without_trace()
    ensures sequence { OutsideKeepsSequence }
    ensures excludes { FoldedCirclesExcludeTraces }
    ensures one_of_the_two { FoldedTraceOrCircle }
{}
