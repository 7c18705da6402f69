ghost use Rattle.flow_fold_laws.specs.Unfolding.{FoldedWaysDecideConstraints};

/// Whether an execution of a folded resolution meets a constraint is seen in the leaves outside its choices, where the test
/// keeps each leaf apart whose event the constraint names.
pub fn law_folded_ways_decide_constraints()
    ensures { FoldedWaysDecideConstraints }
{}
