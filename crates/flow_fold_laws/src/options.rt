ghost use Rattle.flow_fold_laws.specs.Unfolding.{FoldedOptionsCoverGoodTraces};

/// The executions that meet every constraint are those of the folded options.
pub fn law_folded_options_cover_good_traces()
    ensures { FoldedOptionsCoverGoodTraces }
{}
