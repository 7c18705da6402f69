ghost use Rattle.flow_run_laws.specs.FoldedSteps.{SameAllowed, SameClaimsSpared, SameLeft, SameLegal};
ghost use Rattle.flow_run_laws.specs.FoldedHistories.{LegalStatesExtendInFolded, GoesOnInFolded, SameStuck, NeverStuckInFolded};

/// Whatever legal history was made, in some folded option its claims may still be answered in every
/// order, and the journal begins a good trace.
pub fn law_legal_states_extend_in_folded()
    ensures { LegalStatesExtendInFolded }
{}

/// By folded options too, a run that is not over has a claim to wait for or a leaf to go on with,
/// and only tests and absences can keep it waiting.
pub fn law_never_at_a_loss_in_folded()
    ensures goes_on { GoesOnInFolded }
    ensures stuck { SameStuck }
    ensures without_tests { NeverStuckInFolded }
{}

/// The step table asks the same of folded options: the same entries may be made, each leaves the
/// same state with the same claims spared, and the legal histories are the same.
pub fn law_legal_histories_are_the_same_in_folded()
    ensures allowed { SameAllowed }
    ensures spared { SameClaimsSpared }
    ensures left { SameLeft }
    ensures legal { SameLegal }
{}
