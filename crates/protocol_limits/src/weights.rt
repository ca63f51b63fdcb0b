ghost use Rattle.std.specs.Prelude.{◌≡◌, count_by, map, IfOk};
ghost use Rattle.protocol_limits.specs.Counts.{is_message, message_count, private_count};
ghost use Rattle.protocol_limits.specs.Counts.{own_messages, own_privates};
ghost use Rattle.protocol_limits.specs.inner.SortedDocument.{AreCounts};

use super::sorted_document::SortedDocument;
use bspl_parser::{Declaration, Item};
use bspl_types::{NoMemory, Seq};
use reference_graph::weights_below;
use std::alloc::Global;

/// For each protocol of the order, how many messages are at the ends of its paths.
pub(crate) fn message_counts(document: &SortedDocument) -> Result<Seq<u64>, NoMemory>
    ensures { IfOk result
        (AreCounts (message_count document.now.protocols) document.now.order) }
{
    let own = own_messages(document.alloc, document.table.protocols)?;
    weights_below(
        document.alloc,
        document.graph,
        document.order,
        own.as_slice(),
    )
}

/// For each protocol of the order, how many private parameters are at the ends of its paths.
pub(crate) fn private_counts(document: &SortedDocument) -> Result<Seq<u64>, NoMemory>
    ensures { IfOk result
        (AreCounts (private_count document.now.protocols) document.now.order) }
{
    let own = own_privates(document.alloc, document.table.protocols)?;
    weights_below(
        document.alloc,
        document.graph,
        document.order,
        own.as_slice(),
    )
}

/// For each protocol, how many messages its body has.
fn own_messages(alloc: Global, protocols: &[Declaration]) -> Result<Seq<u64>, NoMemory>
    ensures { IfOk result (λ weights. weights ≡ map own_messages protocols.now) }
{
    let mut weights = Seq::new(alloc);
    for protocol in protocols {
        weights.push(messages_in(protocol.body.as_slice()) as u64)?;
    }
    Ok(weights)
}

/// For each protocol, how many private parameters it declares.
fn own_privates(alloc: Global, protocols: &[Declaration]) -> Result<Seq<u64>, NoMemory>
    ensures { IfOk result (λ weights. weights ≡ map own_privates protocols.now) }
{
    let mut weights = Seq::new(alloc);
    for protocol in protocols {
        weights.push(protocol.private.len() as u64)?;
    }
    Ok(weights)
}

/// How many items of the body are messages.
fn messages_in(body: &[Item]) -> usize
    ensures { result ≡ count_by is_message body.now }
{
    let mut count = 0;
    for item in body {
        if is_message(item) {
            count += 1;
        }
    }
    count
}

/// Whether the item is a message.
#[tactic(auto, unfolding(crate::specs::Counts::is_message))]
fn is_message(item: &Item) -> bool
    ensures { result ≡ is_message item.now }
{
    matches!(item, Item::Message(_))
}
