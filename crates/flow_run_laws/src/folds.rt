ghost use Rattle.flow_run_laws.specs.NumberedFolds.{AllOptionsAreUnfoldings, AllUnfoldingsAreOfOne, AllFoldedOptionsAreOrdered, AllOrdersUnfold, AllTakenAlike, AllDoneAlike, AllSparedAlike};

/// Folding asks only that the leaves of a workflow are numbered, also where an execution may hold
/// an event twice: its options are the unfoldings of its folded options, each of just one, and what
/// may follow a journal, what can be taken or done aside, and which claims a new epoch spares is
/// the same by both.
pub fn law_folds_of_numbered_goals()
    ensures options { AllOptionsAreUnfoldings }
    ensures of_one { AllUnfoldingsAreOfOne }
    ensures ordered { AllFoldedOptionsAreOrdered }
    ensures orders { AllOrdersUnfold }
    ensures take { AllTakenAlike }
    ensures aside { AllDoneAlike }
    ensures spared { AllSparedAlike }
{}
