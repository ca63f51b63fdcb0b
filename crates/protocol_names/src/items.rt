ghost use Rattle.std.specs.Prelude.{◌≡◌};
ghost use Rattle.protocol_names.specs.Fault.{IsItemFault, IsUnknown, IsTargetFault};
ghost use Rattle.protocol_names.specs.FaultOrder.{FindsFirst, OfSome};
ghost use Rattle.protocol_names.specs.Names.{params_used, roles_used};

use super::fault::DocumentFault;
use super::fault_order::earlier;
use super::name_table::NameTable;
use super::names::Names;
use super::params::{params_fault, unknown_fault};
use super::protocol_table::ProtocolTable;
use super::references::reference_fault;
use bspl_parser::{Formal, Item, Word};

/// The first fault of a body.
pub(crate) fn body_fault(
    table: &ProtocolTable,
    names: &Names,
    body: &[Item],
) -> Option<DocumentFault>
    ensures { FindsFirst (OfSome (IsItemFault table.now.protocols.now names.now) body.now) result }
{
    let mut first = None;
    for item in body {
        first = earlier(first, item_fault(table, names, item));
    }
    first
}

/// The first fault of a message or of a reference.
fn item_fault(table: &ProtocolTable, names: &Names, item: &Item) -> Option<DocumentFault>
    ensures { FindsFirst (IsItemFault table.now.protocols.now names.now item.now) result }
{
    let roles = roles_used_fault(&names.roles, item);
    let params = params_fault(names, params_used(item));
    let reference = target_fault(table, item);
    earlier(roles, earlier(params, reference))
}

/// The first role that a message or a reference uses and its protocol does not declare.
fn roles_used_fault(declared: &NameTable, item: &Item) -> Option<DocumentFault>
    ensures { FindsFirst (OfSome (IsUnknown declared.now) (roles_used item.now)) result }
{
    match item {
        Item::Message(schema) => earlier(
            unknown_fault(declared, &schema.sender),
            unknown_fault(declared, &schema.receiver),
        ),
        Item::Reference(reference) => unknown_in(declared, reference.roles.as_slice()),
    }
}

/// The first word that is not declared.
fn unknown_in(declared: &NameTable, words: &[Word]) -> Option<DocumentFault>
    ensures { FindsFirst (OfSome (IsUnknown declared.now) words.now) result }
{
    let mut first = None;
    for word in words {
        first = earlier(first, unknown_fault(declared, word));
    }
    first
}

/// The parameters that a message or a reference uses.
fn params_used<'a, 't>(item: &'a Item<'t>) -> &'a [Formal<'t>]
    ensures { result.now ≡ params_used item.now }
{
    match item {
        Item::Message(schema) => schema.params.as_slice(),
        Item::Reference(reference) => reference.params.as_slice(),
    }
}

/// The first fault of a reference against the protocol that it names.
fn target_fault(table: &ProtocolTable, item: &Item) -> Option<DocumentFault>
    ensures { FindsFirst (IsTargetFault table.now.protocols.now item.now) result }
{
    match item {
        Item::Message(_) => None,
        Item::Reference(reference) => reference_fault(table, reference),
    }
}
