ghost use Rattle.std.specs.Prelude.{◌≡◌, ◌<◌, IfOk, length};
ghost use Rattle.circuit_clauses.specs.Condition.{condition_of};
ghost use Rattle.clause_encoding.specs.Carriers.{carriers};
ghost use Rattle.question_formula.specs.Conditions.{demanded, sendable, some_occurs};

use super::joined::all_of;
use super::precedence::some_occurs;
use bspl_types::{Adornment, Carried, Expanded};
use circuit_clauses::{Circuit, denied};
use clause_encoding::carriers;
use list_base::{NoMemory, Seq};
use std::alloc::Global;

/// That the sender of the message can send it now.
pub(crate) fn sendable(alloc: Global, x: &Expanded, m: u32) -> Result<Circuit, NoMemory>
    requires { m < length x.now.messages }
    ensures { IfOk result (λ made. condition_of made ≡ sendable x.now m) }
{
    let message = x.message_at(m);
    let mut circuits = Seq::new(alloc);
    for c in message.carried.as_slice() {
        circuits.push(demanded(alloc, x, message.sender, *c)?)?;
    }
    all_of(alloc, circuits)
}

/// What the adornment of one parameter demands of the sender.
fn demanded(alloc: Global, x: &Expanded, sender: u32, c: Carried) -> Result<Circuit, NoMemory>
    ensures { IfOk result (λ made. condition_of made ≡
        demanded c.adornment (some_occurs (carriers x.now sender c.param))) }
{
    let kinds = carriers(alloc, x, sender, c.param)?;
    let known = some_occurs(alloc, kinds.as_slice())?;
    match c.adornment {
        Adornment::In => Ok(known),
        Adornment::Out | Adornment::Nil => denied(alloc, known),
    }
}
