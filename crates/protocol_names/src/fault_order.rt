ghost use Rattle.std.specs.Prelude.{◌≡◌, IsTrue, cond};
ghost use Rattle.protocol_names.specs.FaultOrder.{earlier, FindsFirst, FaultIf, kind_rank};
ghost use Rattle.protocol_names.specs.FaultOrder.{fault_before};

use super::fault::{DocumentFault, FaultKind};

/// The first of two faults, or the one that there is.
pub(crate) fn earlier(
    one: Option<DocumentFault>,
    other: Option<DocumentFault>,
) -> Option<DocumentFault>
    ensures { result ≡ earlier one other }
{
    match (one, other) {
        (Some(f), Some(g)) => Some(first_of(f, g)),
        (Some(f), None) => Some(f),
        (None, other) => other,
    }
}

/// The fault of the kind at the offset, if the fact holds.
pub(crate) fn fault_if(holds: bool, kind: FaultKind, offset: u64) -> Option<DocumentFault>
    ensures { FindsFirst (FaultIf (IsTrue holds) kind offset) result }
{
    if holds {
        return Some(DocumentFault { kind, offset });
    }
    None
}

/// The one of two faults that comes first.
fn first_of(f: DocumentFault, g: DocumentFault) -> DocumentFault
    ensures { result ≡ cond (fault_before g f) g f }
{
    if comes_before(g, f) { g } else { f }
}

/// Whether the first of two faults comes before the second.
fn comes_before(f: DocumentFault, g: DocumentFault) -> bool
    ensures { result ≡ fault_before f g }
{
    f.offset < g.offset || f.offset == g.offset && kind_rank(f.kind) < kind_rank(g.kind)
}

/// The position of the kind in the order of kinds.
fn kind_rank(kind: FaultKind) -> u8
    ensures { result ≡ kind_rank kind }
{
    kind as u8
}
