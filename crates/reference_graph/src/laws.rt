ghost use Rattle.reference_graph.specs.Laws.{AcyclicGraphsHaveOrders, CyclesAreOne};
ghost use Rattle.reference_graph.specs.Laws.{DepthsAreLongest, OrdersAreShort, OrdersHaveNoCycle};
ghost use Rattle.reference_graph.specs.Laws.{OrdersHaveTheReached, PathsAreShort, WalksHaveResults};
ghost use Rattle.reference_graph.specs.Laws.{WeightsAddUp};

/// A law: if there is an order, no path from the start is a cycle.
pub fn orders_have_no_cycle()
    ensures { OrdersHaveNoCycle }
{}

/// A law: in each graph a walk from each node has a result.
pub fn walks_have_results()
    ensures { WalksHaveResults }
{}

/// A law: if no path from the start is a cycle, there is an order.
pub fn acyclic_graphs_have_orders()
    ensures { AcyclicGraphsHaveOrders }
{}

/// A law: the first cycle ends at one node.
pub fn cycles_are_one()
    ensures { CyclesAreOne }
{}

/// A law: if there is an order, each path has fewer edges than there are nodes.
pub fn paths_are_short()
    ensures { PathsAreShort }
{}

/// A law: an order has no more nodes than the graph.
pub fn orders_are_short()
    ensures { OrdersAreShort }
{}

/// A law: an order has all nodes that are reached.
pub fn orders_have_the_reached()
    ensures { OrdersHaveTheReached }
{}

/// A law: the weight of a node is its own, and those of the nodes that it refers to.
pub fn weights_add_up()
    ensures { WeightsAddUp }
{}

/// A law: over an order, the depth of a node is the length of the longest path from it.
pub fn depths_are_longest()
    ensures { DepthsAreLongest }
{}
