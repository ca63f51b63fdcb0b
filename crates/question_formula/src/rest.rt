ghost use Rattle.std.specs.Prelude.{◌≡◌, ◌<◌, IfOk, length, map};
ghost use Rattle.circuit_clauses.specs.Condition.{condition_of};
ghost use Rattle.clause_encoding.specs.Variables.{message_numbers};
ghost use Rattle.question_formula.specs.Conditions.{all_of, arrives_if_sent, rests_at};

use super::emission::sendable;
use super::joined::all_of;
use super::precedence::is_among;
use bspl_types::Expanded;
use circuit_clauses::{Circuit, both, denied, either};
use clause_core::positive;
use clause_encoding::{received, sent};
use list_base::{NoMemory, Seq};
use std::alloc::Global;

/// That what was sent has arrived, and that nothing else can be sent but what is excused.
pub(crate) fn rests(alloc: Global, x: &Expanded, excused: &[u32]) -> Result<Circuit, NoMemory>
    ensures { IfOk result (λ made. condition_of made ≡
        all_of (map (rests_at x.now excused.now) (message_numbers x.now))) }
{
    let mut circuits = Seq::new(alloc);
    for m in 0..x.messages.len() as u32 {
        circuits.push(rests_at(alloc, x, excused, m)?)?;
    }
    all_of(alloc, circuits)
}

/// The same of one message.
fn rests_at(alloc: Global, x: &Expanded, excused: &[u32], m: u32) -> Result<Circuit, NoMemory>
    requires { m < length x.now.messages }
    ensures { IfOk result (λ made. condition_of made ≡ rests_at x.now excused.now m) }
{
    let arrives = arrives_if_sent(alloc, m)?;
    if is_among(excused, m) {
        return Ok(arrives);
    }
    let unsendable = denied(alloc, sendable(alloc, x, m)?)?;
    let exhausted = either(alloc, Circuit::Literal(positive(sent(m))), unsendable)?;
    both(alloc, arrives, exhausted)
}

/// That the message has arrived if it was sent.
fn arrives_if_sent(alloc: Global, m: u32) -> Result<Circuit, NoMemory>
    requires { m < 64 }
    ensures { IfOk result (λ made. condition_of made ≡ arrives_if_sent m) }
{
    let unsent = Circuit::Literal(positive(sent(m)).negation());
    either(alloc, unsent, Circuit::Literal(positive(received(m))))
}
