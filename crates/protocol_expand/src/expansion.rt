ghost use Rattle.std.specs.Prelude.{◌≡◌, ◌<◌, ℕ, List, length, Some, IfOk, IfErr};
ghost use Rattle.bspl_parser.specs.declared.document.Document.{Document as SpecDocument};
ghost use Rattle.bspl_parser.specs.Spelling.{IsDocument};
ghost use Rattle.protocol_names.specs.Fault.{HasNoFault};
ghost use Rattle.protocol_limits.specs.Graph.{protocol_number};
ghost use Rattle.protocol_expand.specs.Expansion.{Expands};
ghost use Rattle.protocol_expand.specs.Refusals.{HasCycle, NamesNoProtocol, IsNotExpanded, refusal_at};

use super::flat::expand_top;
use bspl_parser::{Declaration, Document};
use bspl_types::{Expanded, Refusal, Seq};
use protocol_limits::{
    Survey, messages_are_counted, numbers_are_of_protocols, privates_are_counted,
    references_are_a_graph, survey,
};
use protocol_names::{DocumentFault, FaultKind, ProtocolTable, first_fault};
use protocol_paths::{Followed, paths_by_items};
use std::alloc::Global;

/// The expansion of the protocol of that name (Singh 2011), or why it has none: the document's
/// first fault; that no protocol has the name; the first cycle of references; the first count over
/// its limit; or two equal names of the expansion.
pub fn expand(alloc: Global, document: &Document, name: &[u8]) -> Result<Expanded, Refusal>
    requires formed { IsDocument document.now }
    ensures ok { IfOk result (Expands document.now name.now) }
    ensures refused { IfErr result (IsNotExpanded document.now name.now) }
{
    match first_fault(alloc, document)? {
        Some(fault) => Err(refusal_of(fault)),
        None => expand_faultless(alloc, document, name),
    }
}

/// The refusal for a fault.
fn refusal_of(fault: DocumentFault) -> Refusal
    ensures { result ≡ refusal_at fault.kind fault.offset }
{
    let offset = fault.offset;
    match fault.kind {
        FaultKind::Duplicate => Refusal::Duplicate { offset },
        FaultKind::Unknown => Refusal::Unknown { offset },
        FaultKind::Arity => Refusal::Arity { offset },
        FaultKind::BadAdornment => Refusal::BadAdornment { offset },
        FaultKind::ForeignKey => Refusal::ForeignKey { offset },
    }
}

/// The refusal of a name that no protocol has.
fn missing(alloc: Global, name: &[u8]) -> Refusal
    ensures { (d : SpecDocument) → NamesNoProtocol d name.now → IsNotExpanded d name.now result }
{
    match Seq::from_slice(alloc, name) {
        Ok(name) => Refusal::NoProtocol { name },
        Err(_) => Refusal::NoMemory,
    }
}

/// The refusal of a cycle of references that ends at the protocol.
fn recursion(alloc: Global, protocol: &Declaration) -> Refusal
    ensures { (d : SpecDocument) (name : List ℕ) → HasCycle d name protocol.now.name.text →
        IsNotExpanded d name result }
{
    match Seq::from_slice(alloc, protocol.name.text.as_slice()) {
        Ok(name) => Refusal::Recursion { name },
        Err(_) => Refusal::NoMemory,
    }
}

/// Why a document without fault expands or does not.
fn expand_faultless(alloc: Global, document: &Document, name: &[u8]) -> Result<Expanded, Refusal>
    requires formed { IsDocument document.now }
    requires faultless { HasNoFault document.now }
    ensures ok { IfOk result (Expands document.now name.now) }
    ensures refused { IfErr result (IsNotExpanded document.now name.now) }
{
    // law: the number of a name is that of its first protocol
    numbers_are_of_protocols();
    let table = ProtocolTable::new(alloc, document.protocols.as_slice())?;
    match table.names.index(name) {
        Some(number) => expand_found(alloc, document, name, &table, number),
        None => Err(missing(alloc, name)),
    }
}

/// Why the protocol of that number, the first of the name, expands or does not. Documents of more
/// than 2^32 protocols are out of memory: their protocols have no numbers.
fn expand_found<'d>(
    alloc: Global,
    document: &Document,
    name: &[u8],
    table: &ProtocolTable<'d>,
    number: usize,
) -> Result<Expanded, Refusal>
    requires formed { IsDocument document.now }
    requires faultless { HasNoFault document.now }
    requires same { table.now.protocols.now ≡ document.now.protocols }
    requires found { protocol_number document.now.protocols name.now ≡ Some number }
    requires within { number < length table.now.protocols.now }
    ensures ok { IfOk result (Expands document.now name.now) }
    ensures refused { IfErr result (IsNotExpanded document.now name.now) }
{
    // law: a number of a name is that of a protocol
    numbers_are_of_protocols();
    // law: the references of a document are a graph
    references_are_a_graph();
    // law: messages and private parameters are counted along all paths
    messages_are_counted();
    privates_are_counted();
    // law: what each item of a body leads to
    paths_by_items();
    let protocols = table.protocols;
    if protocols.len() > u32::MAX as usize {
        return Err(Refusal::NoMemory);
    }
    match survey(alloc, table, number as u32)? {
        Survey::Cycle(node) => Err(recursion(alloc, &protocols[node as usize])),
        Survey::Over { what, count } => Err(Refusal::Limit { what, count }),
        Survey::Within {
            depth,
            messages,
            privates,
        } => {
            let followed = Followed {
                messages: messages.as_slice(),
                privates: privates.as_slice(),
            };
            expand_top(alloc, table, &protocols[number], depth, &followed)
        }
    }
}
