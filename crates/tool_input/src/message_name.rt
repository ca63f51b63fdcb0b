ghost use Rattle.std.specs.Prelude.{◌≡◌, IfOk};
ghost use Rattle.tool_input.specs.MessageName.{unknown_message};

use super::rejection::{Code, Field, Rejection};
use bspl_types::{Bytes, NoMemory};
use std::alloc::Global;

/// The rejection of a name that no message has.
pub fn unknown_message(alloc: Global, name: &[u8]) -> Result<Rejection, NoMemory>
    ensures { IfOk result (λ rejection. rejection ≡ unknown_message name.now) }
{
    let name = Bytes::from_slice(alloc, name)?;
    Ok(Rejection::with_one(Code::E(15), Field::Name(name)))
}
