ghost use Rattle.std.specs.Prelude.{◌≡◌, IfOk};
ghost use Rattle.questions.specs.Subject.{IsAboutHappening};
ghost use Rattle.question_formula.specs.Happenings.{binding_kinds, kinds_of};

use bspl_types::Expanded;
use clause_encoding::{binds, carriers, received, sent};
use list_base::{NoMemory, NumberList, Seq};
use questions::Happening;
use std::alloc::Global;

/// The event kinds of what may have happened: it has happened exactly if one of them occurs.
pub fn kinds_of(alloc: Global, x: &Expanded, h: Happening) -> Result<NumberList, NoMemory>
    requires { IsAboutHappening x.now h }
    ensures { IfOk result (λ kinds. kinds ≡ kinds_of x.now h) }
{
    match h {
        Happening::Sent(m) => Seq::from_slice(alloc, &[sent(m)]),
        Happening::Received(m) => Seq::from_slice(alloc, &[received(m)]),
        Happening::Knows { role, param } => carriers(alloc, x, role, param),
        Happening::Bound(param) => binding_kinds(alloc, x, param),
    }
}

/// The emissions of the messages that adorn the parameter `in` or `out`, in order.
fn binding_kinds(alloc: Global, x: &Expanded, param: u32) -> Result<NumberList, NoMemory>
    ensures { IfOk result (λ kinds. kinds ≡ binding_kinds x.now param) }
{
    let mut kinds = Seq::new(alloc);
    for m in 0..x.messages.len() as u32 {
        if binds(x.message_at(m), param) {
            kinds.push(sent(m))?;
        }
    }
    Ok(kinds)
}
