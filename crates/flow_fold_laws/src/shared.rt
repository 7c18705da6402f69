ghost use Rattle.flow_fold_laws.specs.SharedFolds.{FoldedChoicesAreShared, StayingChoicesServeEach};

/// What the choices of a folded resolution say of a leaf that it has is the same for every folded resolution that has it: it
/// is said of the goal once. So one list of the choices that stay serves them all.
pub fn law_folded_choices_are_shared()
    ensures said { FoldedChoicesAreShared }
    ensures listed { StayingChoicesServeEach }
{}
