ghost use Rattle.flow_laws.specs.Orders.{OrdersMayFollow, OrdersMayFollowOne};

/// Whether leaves may follow a journal in every order is seen in its option, two leaves at a time.
pub fn law_orders_may_follow()
    ensures every_order { OrdersMayFollow }
    ensures after_one { OrdersMayFollowOne }
{}
