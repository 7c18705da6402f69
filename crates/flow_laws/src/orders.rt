ghost use Rattle.flow_laws.specs.Orders.{PairsSufficeForOrders};

/// Two at a time suffice for every order.
pub fn law_pairs_suffice_for_orders()
    ensures { PairsSufficeForOrders }
{}
