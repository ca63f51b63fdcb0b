ghost use Rattle.std.specs.Prelude.{◌≡◌, ◌++◌, ◌<◌, ◌≤◌, OnOk, IfOk, length};
ghost use Rattle.clause_encoding.specs.Rest.{wants_by, wants_of};

use super::parameters::in_parameters;
use bspl_types::Expanded;
use list_base::{NoMemory, Seq};
use std::alloc::Global;

/// A message and a parameter that it adorns `in`: its sender has to know it.
#[derive(Clone, Copy, Debug)]
pub struct Want {
    pub message: u32,
    pub param: u32,
}

/// Each message with each parameter that it adorns `in`, in order.
pub fn wants_of(alloc: Global, x: &Expanded) -> Result<Seq<Want>, NoMemory>
    ensures exact { IfOk result (λ wants. wants ≡ wants_of x.now) }
    ensures few { IfOk result (λ wants. length wants ≤ 1024) }
{
    let mut wants = Seq::new(alloc);
    for m in 0..x.messages.len() as u32 {
        add_wants(&mut wants, alloc, x, m)?;
    }
    Ok(wants)
}

/// Appends those of one message.
fn add_wants(
    wants: &mut Seq<Want>,
    alloc: Global,
    x: &Expanded,
    message: u32,
) -> Result<(), NoMemory>
    requires { message < length x.now.messages }
    ensures { OnOk result (wants.new ≡ wants.old ++ wants_by x.now message) }
{
    let params = in_parameters(alloc, x.message_at(message))?;
    for param in params.as_slice() {
        wants.push(Want {
            message,
            param: *param,
        })?;
    }
    Ok(())
}
