ghost use Rattle.flow_fold_laws.specs.FoldedFollowing.{OrdersUnfold, SameCanTake, SameCanDoAside, SameSpared, FoldedOrdersMayFollow};

/// What may follow a journal, what can be taken or done aside in a run, and which claims a new epoch spares are the same by folded
/// options; and what may follow in one of them is seen in its ready runs and in what it can avoid.
pub fn law_folded_options_let_follow()
    ensures orders { OrdersUnfold }
    ensures take { SameCanTake }
    ensures aside { SameCanDoAside }
    ensures spared { SameSpared }
    ensures each_option { FoldedOrdersMayFollow }
{}
