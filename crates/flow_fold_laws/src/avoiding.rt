ghost use Rattle.flow_fold_laws.specs.FoldedRows.{ExecutionsAvoid};
ghost use Rattle.flow_fold_laws.specs.FoldedAvoiding.{AllMayBegin};

/// A folded option has an execution that goes on from a front without banned leaves exactly where it has one, the front is a ready
/// run, and the goal can avoid them after it.
pub fn law_folded_executions_avoid()
    ensures { ExecutionsAvoid }
{}

/// Leaves that may each begin, and of which none closes off another, may all begin.
pub fn law_leaves_may_begin_together()
    ensures { AllMayBegin }
{}
