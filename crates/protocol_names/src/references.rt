ghost use Rattle.std.specs.Prelude.{◌≡◌, ◌≢◌, ◌↔◌, IsTrue, length};
ghost use Rattle.std.specs.List.{zip};
ghost use Rattle.protocol_names.specs.Fault.{AdornmentDiffers, IsReferenceFault};
ghost use Rattle.protocol_names.specs.FaultOrder.{FindsFirst, OfSome};
ghost use Rattle.protocol_names.specs.Names.{IsSameArity};

use super::fault::{DocumentFault, FaultKind};
use super::fault_order::{earlier, fault_if};
use super::protocol_table::ProtocolTable;
use bspl_parser::{Adorn, Declaration, Formal, Reference};

/// The first fault of a reference against the protocol that it names.
pub(crate) fn reference_fault(table: &ProtocolTable, r: &Reference) -> Option<DocumentFault>
    ensures { FindsFirst (IsReferenceFault table.now.protocols.now r.now) result }
{
    let Some(q) = table.protocol(r.protocol.text.as_slice()) else {
        return Some(DocumentFault {
            kind: FaultKind::Unknown,
            offset: r.protocol.offset,
        });
    };
    if !is_same_arity(r, q) {
        return Some(DocumentFault {
            kind: FaultKind::Arity,
            offset: r.protocol.offset,
        });
    }
    other_adornment(r.params.as_slice(), q.public.as_slice())
}

/// Whether a reference has as many roles and parameters as its protocol declares.
fn is_same_arity(r: &Reference, q: &Declaration) -> bool
    ensures { IsTrue result ↔ IsSameArity r.now q.now }
{
    r.roles.len() == q.roles.len() && r.params.len() == q.public.len()
}

/// The first adornment that is not the declared one.
fn other_adornment(given: &[Formal], declared: &[Formal]) -> Option<DocumentFault>
    requires { length given.now ≡ length declared.now }
    ensures { FindsFirst (OfSome AdornmentDiffers (zip given.now declared.now)) result }
{
    let mut first = None;
    for (index, formal) in given.iter().enumerate() {
        let other = is_other(formal.adorn, declared[index].adorn);
        first = earlier(
            first,
            fault_if(other, FaultKind::BadAdornment, formal.offset),
        );
    }
    first
}

/// Whether two adornments differ.
fn is_other(given: Adorn, declared: Adorn) -> bool
    ensures { IsTrue result ↔ (given ≢ declared) }
{
    given != declared
}
