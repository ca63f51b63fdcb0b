ghost use Rattle.std.specs.Prelude.{◌≡◌, IfOk};
ghost use Rattle.circuit_clauses.specs.Condition.{condition_of};
ghost use Rattle.clause_encoding.specs.Variables.{IsSmall, kind_count};
ghost use Rattle.questions.specs.Subject.{IsAbout, IsAboutHappening};
ghost use Rattle.question_formula.specs.Conditions.{asked, some_before, some_occurs};
ghost use Rattle.question_formula.specs.Happenings.{kinds_of};

use super::emission::sendable;
use super::kinds::kinds_of;
use super::precedence::{some_before, some_occurs};
use super::rest::rests;
use bspl_types::Expanded;
use circuit_clauses::{Circuit, both, denied, either};
use clause_encoding::{Variables, carriers_are_kinds};
use list_base::NoMemory;
use questions::{Happening, Question};
use std::alloc::Global;

/// The condition that the answer to the question is yes.
pub fn question_circuit(
    alloc: Global,
    x: &Expanded,
    vars: Variables,
    q: &Question,
) -> Result<Circuit, NoMemory>
    requires about { IsAbout x.now q.now }
    requires kinds { vars.kinds ≡ kind_count x.now }
    requires small { IsSmall vars }
    ensures { IfOk result (λ made. condition_of made ≡ asked x.now vars q.now) }
{
    match q {
        Question::Happened(h) => happened(alloc, x, *h),
        Question::Before(one, other) => before(alloc, x, vars, *one, *other),
        Question::Can(m) => sendable(alloc, x, *m),
        Question::Rest(excused) => rests(alloc, x, excused.as_slice()),
        Question::Not(q) => denied(alloc, question_circuit(alloc, x, vars, q)?),
        Question::And(q, r) => {
            let left = question_circuit(alloc, x, vars, q)?;
            both(alloc, left, question_circuit(alloc, x, vars, r)?)
        }
        Question::Or(q, r) => {
            let left = question_circuit(alloc, x, vars, q)?;
            either(alloc, left, question_circuit(alloc, x, vars, r)?)
        }
    }
}

/// That it has happened.
fn happened(alloc: Global, x: &Expanded, h: Happening) -> Result<Circuit, NoMemory>
    requires { IsAboutHappening x.now h }
    ensures { IfOk result (λ made. condition_of made ≡ some_occurs (kinds_of x.now h)) }
{
    let kinds = kinds_of(alloc, x, h)?;
    some_occurs(alloc, kinds.as_slice())
}

/// That the one happened when the other had not.
fn before(
    alloc: Global,
    x: &Expanded,
    vars: Variables,
    one: Happening,
    other: Happening,
) -> Result<Circuit, NoMemory>
    requires one { IsAboutHappening x.now one }
    requires other { IsAboutHappening x.now other }
    requires kinds { vars.kinds ≡ kind_count x.now }
    requires small { IsSmall vars }
    ensures { IfOk result (λ made. condition_of made ≡
        some_before vars (kinds_of x.now one) (kinds_of x.now other)) }
{
    // law: what makes a parameter known at a role are kinds of the protocol
    carriers_are_kinds();
    let kinds = kinds_of(alloc, x, one)?;
    let others = kinds_of(alloc, x, other)?;
    some_before(alloc, vars, kinds.as_slice(), others.as_slice())
}
