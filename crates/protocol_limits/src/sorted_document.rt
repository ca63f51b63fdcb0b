use protocol_names::ProtocolTable;
use reference_graph::Graph;
use std::alloc::Global;
use std::marker::Model;

/// A document whose protocols are sorted by their references from one of them on, without a cycle.
/// Contracts see its protocols, their references, the order and the top.
#[derive(Drop)]
pub(crate) struct SortedDocument<'d, 's, 'a> {
    pub alloc: Global,
    pub table: &'s ProtocolTable<'d>,
    pub graph: &'a Graph,
    /// What is reached, each protocol after all that it refers to.
    pub order: &'a [u32],
    pub top: u32,
}

impl<'d, 's, 'a> Model for SortedDocument<'d, 's, 'a> {
    ghost use Rattle.protocol_limits.specs.inner.SortedDocument.{IsSorted, SortedProtocols};

    ghost Value = { SortedProtocols };

    ghost view = { λ d. record {
      protocols = d.table.now.protocols.now;
      graph = d.graph.now;
      order = d.order.now;
      top = d.top;
    } };

    ghost invariant = { λ d. IsSorted d.table.now.protocols.now d.graph.now d.order.now d.top };
}
