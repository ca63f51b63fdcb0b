ghost use Rattle.std.specs.Prelude.{◌≡◌, ◌⊎◌, ◌↔◌, IsTrue};
ghost use Rattle.bspl_parser.specs.declared.document.Adorn.TheVariants.{Any, Opt};
ghost use Rattle.protocol_names.specs.Fault.{IsForeignKey, IsParamFault, IsUnknown, IsUnsupported};
ghost use Rattle.protocol_names.specs.FaultOrder.{FindsFirst, OfSome};

use super::fault::{DocumentFault, FaultKind};
use super::fault_order::{earlier, fault_if};
use super::name_table::NameTable;
use super::names::Names;
use bspl_parser::{Adorn, Formal, Word};

/// The first fault of the public parameters.
pub(crate) fn public_fault(formals: &[Formal]) -> Option<DocumentFault>
    ensures { FindsFirst (OfSome IsUnsupported formals.now) result }
{
    let mut first = None;
    for formal in formals {
        first = earlier(first, unsupported_fault(formal));
    }
    first
}

/// The first fault of the parameters of a message or of a reference.
pub(crate) fn params_fault(names: &Names, formals: &[Formal]) -> Option<DocumentFault>
    ensures { FindsFirst (OfSome (IsParamFault names.now) formals.now) result }
{
    let mut first = None;
    for formal in formals {
        first = earlier(first, param_fault(names, formal));
    }
    first
}

/// The first fault of one parameter of a message or of a reference.
fn param_fault(names: &Names, formal: &Formal) -> Option<DocumentFault>
    ensures { FindsFirst (IsParamFault names.now formal.now) result }
{
    let unknown = unknown_fault(&names.params, &formal.name);
    let unsupported = unsupported_fault(formal);
    let foreign = foreign_key_fault(&names.keys, formal);
    earlier(unknown, earlier(unsupported, foreign))
}

/// The fault of a name that is not declared.
pub(crate) fn unknown_fault(declared: &NameTable, word: &Word) -> Option<DocumentFault>
    ensures { FindsFirst (IsUnknown declared.now word.now) result }
{
    let known = declared.has(word.text.as_slice());
    fault_if(!known, FaultKind::Unknown, word.offset)
}

/// The fault of an adornment that is not supported.
fn unsupported_fault(formal: &Formal) -> Option<DocumentFault>
    ensures { FindsFirst (IsUnsupported formal.now) result }
{
    let unsupported = is_unsupported(formal.adorn);
    fault_if(unsupported, FaultKind::BadAdornment, formal.offset)
}

/// Whether the adornment is not supported.
fn is_unsupported(adorn: Adorn) -> bool
    ensures { IsTrue result ↔ ((adorn ≡ Any) ⊎ (adorn ≡ Opt)) }
{
    matches!(adorn, Adorn::Any | Adorn::Opt)
}

/// The fault of the word `key` at a parameter that is not declared as a key.
fn foreign_key_fault(keys: &NameTable, formal: &Formal) -> Option<DocumentFault>
    ensures { FindsFirst (IsForeignKey keys.now formal.now) result }
{
    let offset = formal.key?;
    let known = keys.has(formal.name.text.as_slice());
    fault_if(!known, FaultKind::ForeignKey, offset)
}
