ghost use Rattle.std.specs.Prelude.{◌≡◌};
ghost use Rattle.bspl_types.specs.Expansion.{message_name, param_name};

use bspl_types::Expanded;

/// The name of the parameter of that number, or none past the last.
pub fn param_name(x: &Expanded, param: u32) -> &[u8]
    ensures { result.now ≡ param_name x.now param }
{
    match x.params.as_slice().get(param as usize) {
        Some(info) => info.name.as_slice(),
        None => &[],
    }
}

/// The name of the message of that number, or none past the last.
pub fn message_name(x: &Expanded, message: u32) -> &[u8]
    ensures { result.now ≡ message_name x.now message }
{
    match x.messages.as_slice().get(message as usize) {
        Some(message) => message.name.as_slice(),
        None => &[],
    }
}
