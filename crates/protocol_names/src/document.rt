ghost use Rattle.std.specs.Prelude.{◌≡◌, IfOk, MatchOption};
ghost use Rattle.protocol_names.specs.Fault.{HasNoFault, IsFaultIn, IsFirstFault};
ghost use Rattle.protocol_names.specs.FaultOrder.{FindsFirst, OfSome};
ghost use Rattle.protocol_names.specs.Names.{param_words, texts};
ghost use Rattle.protocol_names.specs.inner.OtherFault.{IsOtherFaultIn};

use super::declared_names::{
    key_names, named_messages, named_params, named_protocols, named_roles,
};
use super::fault::DocumentFault;
use super::fault_order::earlier;
use super::items::body_fault;
use super::name_table::NameTable;
use super::names::Names;
use super::params::public_fault;
use super::protocol_table::ProtocolTable;
use bspl_parser::{Declaration, Document};
use bspl_types::NoMemory;
use std::alloc::Global;

/// The first fault of the document, if it has one.
pub fn first_fault(alloc: Global, document: &Document) -> Result<Option<DocumentFault>, NoMemory>
    ensures { IfOk result (λ found.
        MatchOption found (HasNoFault document.now) (IsFirstFault document.now)) }
{
    let protocols = document.protocols.as_slice();
    let declared = named_protocols(alloc, protocols)?;
    let duplicate = declared.first;
    let table = ProtocolTable {
        protocols,
        names: declared.names,
    };
    let inner = fault_in_some(alloc, &table, protocols)?;
    Ok(earlier(duplicate, inner))
}

/// The first fault within the protocols.
fn fault_in_some(
    alloc: Global,
    table: &ProtocolTable,
    protocols: &[Declaration],
) -> Result<Option<DocumentFault>, NoMemory>
    ensures { IfOk result (FindsFirst (OfSome (IsFaultIn table.now.protocols.now) protocols.now)) }
{
    let mut first = None;
    for protocol in protocols {
        first = earlier(first, fault_in(alloc, table, protocol)?);
    }
    Ok(first)
}

/// The first fault within one protocol.
fn fault_in(
    alloc: Global,
    table: &ProtocolTable,
    p: &Declaration,
) -> Result<Option<DocumentFault>, NoMemory>
    ensures { IfOk result (FindsFirst (IsFaultIn table.now.protocols.now p.now)) }
{
    let messages = named_messages(alloc, p.body.as_slice())?.first;
    let roles = named_roles(alloc, p.roles.as_slice())?;
    let params = named_params(alloc, p.public.as_slice(), p.private.as_slice())?;
    let duplicate = earlier(roles.first, earlier(params.first, messages));
    let other = other_fault(alloc, table, p, roles.names, params.names)?;
    Ok(earlier(duplicate, other))
}

/// The first fault within one protocol but for duplicates, if its roles and its parameters have
/// these names.
fn other_fault<'n>(
    alloc: Global,
    table: &ProtocolTable,
    p: &'n Declaration<'n>,
    roles: NameTable<'n>,
    params: NameTable<'n>,
) -> Result<Option<DocumentFault>, NoMemory>
    requires roles { roles ≡ texts p.now.roles }
    requires params { params ≡ texts (param_words p.now) }
    ensures { IfOk result (FindsFirst (IsOtherFaultIn table.now.protocols.now p.now)) }
{
    let keys = key_names(alloc, p.public.as_slice())?;
    let names = Names {
        roles,
        params,
        keys,
    };
    let public = public_fault(p.public.as_slice());
    let body = body_fault(table, &names, p.body.as_slice());
    Ok(earlier(public, body))
}
