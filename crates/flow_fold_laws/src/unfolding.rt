ghost use Rattle.flow_fold_laws.specs.Unfolding.{OptionsAreUnfoldings, UnfoldingsAreOfOne, FoldedOptionsAreOrdered, TracesUnfold};

/// The options of a well-formed workflow are the unfoldings of its folded options: one side is taken at each choice that is
/// left. Each is an unfolding of just one, and the executions of a folded option are those of its unfoldings.
pub fn law_options_unfold()
    ensures options { OptionsAreUnfoldings }
    ensures of_one { UnfoldingsAreOfOne }
    ensures ordered { FoldedOptionsAreOrdered }
    ensures traces { TracesUnfold }
{}
