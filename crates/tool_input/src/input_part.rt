ghost use Rattle.std.specs.Prelude.{◌≡◌, ◌≤◌, IfErr, IfOk, length};
ghost use Rattle.tool_input.specs.declared.parts.Part.{Part};
ghost use Rattle.tool_input.specs.declared.refusal.InputRefusal.TheVariants.{NoPart};
ghost use Rattle.tool_input.specs.NeededPart.{HasPart, LacksPart};

use super::parts::{Part, first_part};
use super::refusal::InputRefusal;

/// The bytes of the part that is needed; none if none is needed.
pub fn needed_part(needed: Option<Part>, input: &[u8]) -> Result<&[u8], InputRefusal>
    ensures ok { IfOk result (λ part. HasPart needed input.now part.now) }
    ensures within { IfOk result (λ part. length part.now ≤ length input.now) }
    ensures refused { IfErr result (λ refusal.
        (part : Part) × LacksPart needed input.now part × (refusal ≡ NoPart part)) }
{
    let Some(needed) = needed else {
        return Ok(&[]);
    };
    match first_part(input) {
        Some((part, bytes)) if part == needed => Ok(bytes),
        _ => Err(InputRefusal::NoPart { part: needed }),
    }
}
