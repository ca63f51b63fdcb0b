ghost use Rattle.std.specs.Prelude.{◌≡◌, ◌≤◌, IfErr, IfOk, length};
ghost use Rattle.tool_input.specs.declared.parts.Part.{Part};
ghost use Rattle.tool_input.specs.declared.refusal.InputRefusal.TheVariants.{NoPart};
ghost use Rattle.tool_input.specs.Need.{HasGiven, LacksGiven};

use super::input_part::needed_part;
use super::parts::Part;
use super::refusal::InputRefusal;

/// What a command is given of the input beside its protocol.
#[derive(Clone, Copy, Debug, PartialEq, Eq)]
pub enum Need {
    /// Nothing.
    Nothing,
    /// The bytes of a part.
    Part(Part),
    /// The whole input: the command looks at whatever part is there.
    Input,
}

/// The bytes that a command with that need is given of the input.
pub fn given(need: Need, input: &[u8]) -> Result<&[u8], InputRefusal>
    ensures ok { IfOk result (λ bytes. HasGiven need input.now bytes.now) }
    ensures within { IfOk result (λ bytes. length bytes.now ≤ length input.now) }
    ensures refused { IfErr result (λ refusal.
        (part : Part) × LacksGiven need input.now part × (refusal ≡ NoPart part)) }
{
    match need {
        Need::Nothing => Ok(&[]),
        Need::Part(part) => needed_part(Some(part), input),
        Need::Input => Ok(input),
    }
}
