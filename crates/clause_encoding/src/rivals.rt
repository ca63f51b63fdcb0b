ghost use Rattle.std.specs.Prelude.{◌≡◌, ◌++◌, ◌≤◌, OnOk, IfOk, length};
ghost use Rattle.clause_encoding.specs.Rivals.{producers_of, rivals_among, rivals_of};
ghost use Rattle.clause_encoding.specs.inner.Chosen.{rivals_with};

use super::parameters::produces;
use bspl_types::Expanded;
use list_base::{NoMemory, NumberList, Seq};
use std::alloc::Global;

/// Two messages that produce one parameter, the first of them earlier in the protocol.
#[derive(Clone, Copy, Debug)]
pub struct Rivals {
    pub param: u32,
    pub first: u32,
    pub second: u32,
}

/// The rivals of each parameter, in order.
pub fn rivals_of(alloc: Global, x: &Expanded) -> Result<Seq<Rivals>, NoMemory>
    ensures exact { IfOk result (λ rivals. rivals ≡ rivals_of x.now) }
    ensures few { IfOk result (λ rivals. length rivals ≤ 262144) }
{
    let mut rivals = Seq::new(alloc);
    for param in 0..x.params.len() as u32 {
        let producers = producers_of(alloc, x, param)?;
        add_rivals(&mut rivals, param, producers.as_slice())?;
    }
    Ok(rivals)
}

/// The messages that produce the parameter, in order.
fn producers_of(alloc: Global, x: &Expanded, param: u32) -> Result<NumberList, NoMemory>
    ensures { IfOk result (λ messages. messages ≡ producers_of x.now param) }
{
    let mut messages = Seq::new(alloc);
    for m in 0..x.messages.len() as u32 {
        if produces(x.message_at(m), param) {
            messages.push(m)?;
        }
    }
    Ok(messages)
}

/// Appends each two of the producers.
fn add_rivals(rivals: &mut Seq<Rivals>, param: u32, producers: &[u32]) -> Result<(), NoMemory>
    ensures { OnOk result (rivals.new ≡ rivals.old ++ rivals_among param producers.now) }
{
    for (i, first) in producers.iter().enumerate() {
        add_pairs(rivals, param, *first, &producers[i + 1..])?;
    }
    Ok(())
}

/// Appends the message with each of the others.
fn add_pairs(
    rivals: &mut Seq<Rivals>,
    param: u32,
    first: u32,
    others: &[u32],
) -> Result<(), NoMemory>
    ensures { OnOk result (rivals.new ≡ rivals.old ++ rivals_with param first others.now) }
{
    for second in others {
        rivals.push(Rivals {
            param,
            first,
            second: *second,
        })?;
    }
    Ok(())
}
