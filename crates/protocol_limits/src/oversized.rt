ghost use Rattle.std.specs.Prelude.{◌≡◌, length, nat_lt, slice_index_or, cond, Some, None, IfOk};
ghost use Rattle.bspl_types.specs.Limits.{carried_limit};
ghost use Rattle.protocol_limits.specs.Counts.{first_oversized};
ghost use Rattle.protocol_limits.specs.inner.Oversized.{first_oversized_in, oversized_item};

use super::references::target_of;
use super::sorted_document::SortedDocument;
use bspl_parser::Item;
use bspl_types::{CARRIED_LIMIT, NoMemory};
use protocol_names::ProtocolTable;
use reference_graph::orders_are_short;

/// The number of parameters of the first message that carries too many, if one does.
pub(crate) fn first_oversized(document: &SortedDocument) -> Result<Option<u64>, NoMemory>
    ensures { IfOk result (λ found.
        found ≡ first_oversized document.now.protocols document.now.top) }
{
    // law: an order has no more nodes than the graph
    orders_are_short();
    let protocols = document.table.protocols;
    let mut counts = vec![in document.alloc; None; protocols.len()]?;
    for number in document.order {
        let body = protocols[*number as usize].body.as_slice();
        let found = first_oversized_in(document.table, &counts, body);
        counts[*number as usize] = found;
    }
    Ok(counts[document.top as usize])
}

/// The first number that is found of the items: of a message itself, and of a reference what the
/// counts say of its target.
fn first_oversized_in(table: &ProtocolTable, counts: &[Option<u64>], body: &[Item]) -> Option<u64>
    requires { length counts.now ≡ length table.now.protocols.now }
    ensures { result ≡ first_oversized_in table.now.protocols.now
        (λ k. slice_index_or counts.now k None) body.now }
{
    for item in body {
        let found = oversized_item(table, counts, item);
        if found.is_some() {
            return found;
        }
    }
    None
}

/// The number that is found of one item.
fn oversized_item(table: &ProtocolTable, counts: &[Option<u64>], item: &Item) -> Option<u64>
    requires { length counts.now ≡ length table.now.protocols.now }
    ensures { result ≡ oversized_item table.now.protocols.now
        (λ k. slice_index_or counts.now k None) item.now }
{
    if let Item::Message(schema) = item {
        return oversized_count(schema.params.len());
    }
    match target_of(table, item) {
        Some(number) => counts[number],
        None => None,
    }
}

/// The number, if it is over the limit.
fn oversized_count(count: usize) -> Option<u64>
    ensures { result ≡ cond (nat_lt carried_limit count) (Some count) None }
{
    if count > CARRIED_LIMIT {
        Some(count as u64)
    } else {
        None
    }
}
