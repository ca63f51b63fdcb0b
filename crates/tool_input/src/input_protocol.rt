ghost use Rattle.std.specs.Prelude.{◌≢◌, IfErr, IfOk};
ghost use Rattle.bspl_types.specs.declared.refusals.Refusal.TheVariants.{NoMemory};
ghost use Rattle.tool_input.specs.Input.{Declares};
ghost use Rattle.tool_input.specs.Parts.{protocol_text};
ghost use Rattle.tool_input.specs.TextRefusal.{RefusesText};

use super::limits::TEXT_LIMIT;
use super::parts::protocol_text;
use bspl_parser::{parse, reads_back};
use bspl_types::{Admitted, Refusal, What};
use protocol_expand::{admit, expand};
use std::alloc::Global;

/// The protocol of the name that the input's protocol text declares, or why it declares none.
pub fn protocol_of(alloc: Global, name: &[u8], input: &[u8]) -> Result<Admitted, Refusal>
    ensures ok { IfOk result (Declares name.now (protocol_text input.now)) }
    ensures refused { IfErr result (λ r.
        r ≢ NoMemory → RefusesText name.now (protocol_text input.now) r) }
{
    declared_protocol(alloc, name, protocol_text(input))
}

/// The protocol of the name that the text declares, or why it declares none. The first refusal
/// counts: for the length of the text, as it is read, as the protocol is expanded, as its expansion
/// is admitted.
pub fn declared_protocol(alloc: Global, name: &[u8], text: &[u8]) -> Result<Admitted, Refusal>
    ensures ok { IfOk result (Declares name.now text.now) }
    ensures refused { IfErr result (λ r. r ≢ NoMemory → RefusesText name.now text.now r) }
{
    // law: each text that is parsed is printed back
    reads_back();
    if text.len() > TEXT_LIMIT {
        return Err(Refusal::Limit {
            what: What::Text,
            count: text.len() as u64,
        });
    }
    let document = parse(alloc, text)?;
    let expanded = expand(alloc, &document, name)?;
    admit(expanded)
}
