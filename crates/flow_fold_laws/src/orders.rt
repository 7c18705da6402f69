ghost use Rattle.flow_fold_laws.specs.FoldedFollowing.{FoldedPairsSuffice};

/// Two at a time suffice for every order, where choices are folded too.
pub fn law_two_suffice_in_folded()
    ensures { FoldedPairsSuffice }
{}
