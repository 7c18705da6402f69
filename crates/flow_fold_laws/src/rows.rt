ghost use Rattle.flow_fold_laws.specs.FoldedRows.{FinishedBySettled, TurnsBySettled, ReadyByRows, SettledInOnePass, AvoidedInOnePass};

/// What is finished, whose turn it is and what may come next is seen by rows of leaves.
pub fn law_folded_rows_tell_readiness()
    ensures finished { FinishedBySettled }
    ensures turns { TurnsBySettled }
    ensures ready { ReadyByRows }
{}

/// The settled leaves are found by going through the choices once.
pub fn law_settled_in_one_pass()
    ensures { SettledInOnePass }
{}

/// Whether banned leaves can be avoided is found by going through the choices once.
pub fn law_avoided_in_one_pass()
    ensures { AvoidedInOnePass }
{}
