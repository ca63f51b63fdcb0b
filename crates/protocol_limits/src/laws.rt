ghost use Rattle.protocol_limits.specs.Laws.{MessagesAreCounted, NumbersAreOfProtocols};
ghost use Rattle.protocol_limits.specs.Laws.{PrivatesAreCounted, ReferencesAreAGraph};
ghost use Rattle.protocol_limits.specs.Laws.{UnrolledHaveOrders, UnrolledPathsAreShort};

use reference_graph::{
    acyclic_graphs_have_orders, depths_are_longest, orders_have_no_cycle, paths_are_short,
    weights_add_up,
};

/// A law: the number of a name is that of its first protocol.
pub fn numbers_are_of_protocols()
    ensures { NumbersAreOfProtocols }
{}

/// A law: the references of a document are a graph, with a node for each protocol.
pub fn references_are_a_graph()
    ensures { ReferencesAreAGraph }
{}

/// A law: no path of references is a cycle exactly if the protocols that are reached have an order.
pub fn unrolled_have_orders()
    ensures { UnrolledHaveOrders }
{
    // law: if there is an order, no path is a cycle
    orders_have_no_cycle();
    // law: if no path is a cycle, there is an order
    acyclic_graphs_have_orders();
}

/// A law: if no path is a cycle, no path has more references than the depth, nor than there are
/// protocols.
pub fn unrolled_paths_are_short()
    ensures { UnrolledPathsAreShort }
{
    // law: if no path is a cycle, there is an order
    acyclic_graphs_have_orders();
    // law: over an order, paths have fewer edges than there are nodes
    paths_are_short();
    // law: over an order, the depth is the length of the longest path
    depths_are_longest();
}

/// A law: the messages at the ends of paths are as many as the paths have, each weighed by the
/// messages of the protocol where it ends.
pub fn messages_are_counted()
    ensures { MessagesAreCounted }
{
    // law: the weight of a node is its own, and those of the nodes that it refers to
    weights_add_up();
}

/// A law: so are the private parameters.
pub fn privates_are_counted()
    ensures { PrivatesAreCounted }
{
    // law: the weight of a node is its own, and those of the nodes that it refers to
    weights_add_up();
}
