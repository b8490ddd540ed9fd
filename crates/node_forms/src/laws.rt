//! The laws. Nothing runs here: each contract is the law.

ghost use Rattle.node_forms.specs.Laws.{NodesAreBounded};
ghost use Rattle.node_forms.specs.Orders.{OrdersAreBounded};

/// Whatever a node spends is at most its form, where what the nodes that it calls spend is at most theirs.
pub fn nodes_are_bounded()
    ensures { NodesAreBounded }
{}

/// In an order with callees first each node is bounded by the term that is kept for it, where this is worth its form at least.
pub fn orders_are_bounded()
    ensures { OrdersAreBounded }
{}
