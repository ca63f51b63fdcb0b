ghost use Rattle.std.specs.Prelude.{◌≡◌, ◌<◌, ◌^◌, ◌++◌, [], length, IfOk, IfSome, OnOk};
ghost use Rattle.std.specs.List.{cons_option};
ghost use Rattle.protocol_limits.specs.Graph.{graph_of, references_of, target_of};

use bspl_parser::{Declaration, Item};
use bspl_types::{NoMemory, NumberList, Seq};
use protocol_names::ProtocolTable;
use reference_graph::Graph;
use std::alloc::Global;

/// The references between the protocols of a document.
pub(crate) fn graph_of(alloc: Global, table: &ProtocolTable) -> Result<Graph, NoMemory>
    requires { length table.now.protocols.now < 2 ^ 32 }
    ensures { IfOk result (λ graph. graph ≡ graph_of table.now.protocols.now) }
{
    let mut lists = Seq::new(alloc);
    for protocol in table.protocols {
        lists.push(references_of(alloc, table, protocol)?)?;
    }
    Ok(Graph::of(lists))
}

/// The numbers of the protocols that the protocol refers to, in the order of its body.
fn references_of(
    alloc: Global,
    table: &ProtocolTable,
    protocol: &Declaration,
) -> Result<NumberList, NoMemory>
    requires { length table.now.protocols.now < 2 ^ 32 }
    ensures { IfOk result (λ numbers.
        numbers ≡ references_of table.now.protocols.now protocol.now) }
{
    let mut numbers = Seq::new(alloc);
    for item in protocol.body.as_slice() {
        add_target(table, item, &mut numbers)?;
    }
    Ok(numbers)
}

/// Adds the number of the protocol that the item refers to, if it refers to one.
fn add_target(table: &ProtocolTable, item: &Item, numbers: &mut NumberList) -> Result<(), NoMemory>
    requires { length table.now.protocols.now < 2 ^ 32 }
    ensures { OnOk result (numbers.new ≡
        numbers.old ++ cons_option (target_of table.now.protocols.now item.now) []) }
{
    match target_of(table, item) {
        Some(number) => numbers.push(number as u32),
        None => Ok(()),
    }
}

/// The number of the protocol that the item refers to, if it refers to one.
pub(crate) fn target_of(table: &ProtocolTable, item: &Item) -> Option<usize>
    ensures target { result ≡ target_of table.now.protocols.now item.now }
    ensures within { IfSome result (λ number. number < length table.now.protocols.now) }
{
    match item {
        Item::Message(_) => None,
        Item::Reference(reference) => { table.names.index(reference.protocol.text.as_slice()) }
    }
}
