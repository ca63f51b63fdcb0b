ghost use Rattle.std.specs.Prelude.{◌≤◌, ◌<◌, length, IfOk};
ghost use Rattle.bspl_types.specs.declared.expanded.Expanded.{Expanded as SpecExpanded};
ghost use Rattle.questions.specs.Subject.{IsAbout};
ghost use Rattle.refutation_log.specs.LogText.{LogInRange};

use super::formulas::formula_of;
use super::protocols::{alone, protocol};
use bspl_types::Admitted;
use clause_core::Clause;
use list_base::{NoMemory, Seq};
use question_answer::{
    Answer, QuestionSearch, check_question, read_titled_log, split_title, write_question_log,
};
use question_formula::question_formula;
use questions::{Happening, Question};
use refutation_log::Log;
use std::alloc::Global;
use std::test::Fail;

/// A tells B, B tells C, and C tells A; each adds a value.
const RELAY: &[u8] = b"Relay {
    roles A, B, C parameters out ID key, out x, out y, out z
    A -> B: a[out ID, out x]
    B -> C: b[in ID, in x, out y]
    C -> A: c[in ID, in y, out z]
}";

/// What the clauses of Relay say when it comes to rest without z, after those of every formula.
/// Variables 22 to 25 stand for what B and C cannot do.
const AT_REST: &str = "-1 2 0  1 6 0  -3 4 0  3 22 23 0  -2 -22 0  -3 -22 0  -2 -23 0  -3 -23 0
    -5 6 0  5 24 25 0  -4 -24 0  -5 -24 0  -4 -25 0  -5 -25 0  -5 0";

/// How many clauses of Relay's formulas are stored before them.
const SHARED: usize = 38;

/// Can all come to rest while the fourth parameter is unbound?
fn rest_without_fourth(alloc: Global) -> Result<Question, NoMemory>
    ensures { IfOk result (λ q. (x : SpecExpanded) → 3 < length x.params → IsAbout x q) }
{
    let bound = Question::Happened(Happening::Bound(3));
    let unbound = Question::Not(Box::new(alloc, bound)?);
    let rest = Question::Rest(Seq::new(alloc));
    Ok(Question::And(Box::new(alloc, rest)?, Box::new(alloc, unbound)?))
}

/// Whether the clauses are the same, in order.
fn are_same(clauses: &[Clause], others: &[Clause]) -> bool {
    if clauses.len() != others.len() {
        return false;
    }
    for (n, clause) in clauses.iter().enumerate() {
        if clause.lits() != others[n].lits() {
            return false;
        }
    }
    true
}

/// Whether the formula of the question has the spelled clauses, after those of every formula.
fn has_clauses(alloc: Global, a: &Admitted, q: &Question, text: &str) -> Result<bool, NoMemory>
    requires { IsAbout a.now q.now }
{
    let formula = question_formula(alloc, a, q)?;
    let Some(expected) = formula_of(alloc, 25, text)? else {
        return Ok(false);
    };
    let clauses = formula.stored.clauses.as_slice();
    if clauses.len() < SHARED || formula.stored.vars != expected.vars {
        return Ok(false);
    }
    Ok(are_same(&clauses[SHARED..], expected.clauses.as_slice()))
}

/// Whether the log is accepted for the question, as it is written and read.
fn is_accepted(alloc: Global, a: &Admitted, q: &Question, log: &Log) -> bool
    requires about { IsAbout a.now q.now }
    requires numbers { LogInRange log.now }
{
    let Ok(text) = write_question_log(alloc, b"rest and not bound z", log) else {
        return false;
    };
    let Some((version, spelling, rest)) = split_title(text.as_slice()) else {
        return false;
    };
    match read_titled_log(alloc, version, rest) {
        Ok(read) if read.steps.len() <= 100 => {
            spelling == b"rest and not bound z".as_slice()
                && check_question(alloc, a, q, &read).is_ok()
        }
        _ => false,
    }
}

/// Whether the question is impossible, by a log that is accepted.
fn is_impossible(alloc: Global, a: &Admitted, q: &Question) -> Result<bool, NoMemory>
    requires { IsAbout a.now q.now }
{
    let mut searches = QuestionSearch::new(alloc, a)?;
    match searches.answer(alloc, q, 100)? {
        Answer::Impossible(log) => Ok(is_accepted(alloc, a, q, &log)),
        _ => Ok(false),
    }
}

/// How many events the run has at whose end the answer is yes, if there is one.
fn events_until(alloc: Global, a: &Admitted, q: &Question) -> Result<Option<usize>, NoMemory>
    requires { IsAbout a.now q.now }
{
    let mut searches = QuestionSearch::new(alloc, a)?;
    match searches.answer(alloc, q, 100)? {
        Answer::Possible(run) => Ok(Some(run.len())),
        _ => Ok(None),
    }
}

/// Whether the relay cannot come to rest without z, by the clauses that are wanted.
fn rests_with_all(alloc: Global, a: &Admitted) -> Result<bool, NoMemory> {
    if a.expanded().params.len() != 4 {
        return Ok(false);
    }
    let q = rest_without_fourth(alloc)?;
    Ok(has_clauses(alloc, a, &q, AT_REST)? && is_impossible(alloc, a, &q)?)
}

/// Whether the second message is received at the end of a run of four events.
fn second_arrives(alloc: Global, a: &Admitted) -> Result<bool, NoMemory> {
    if a.expanded().messages.len() != 3 {
        return Ok(false);
    }
    let q = Question::Happened(Happening::Received(1));
    Ok(events_until(alloc, a, &q)? == Some(4))
}

#[test]
fn a_relay_comes_to_rest_with_all_values(rt: HostRuntime) -> Result<(), Fail> {
    let relays = alone(rt.alloc(), protocol(rt.alloc(), RELAY, b"Relay")?)?;
    assert!(rt; rests_with_all(rt.alloc(), relays.at(0))?);
    Ok(())
}

#[test]
fn a_run_is_cut_where_the_answer_is_yes(rt: HostRuntime) -> Result<(), Fail> {
    let relays = alone(rt.alloc(), protocol(rt.alloc(), RELAY, b"Relay")?)?;
    assert!(rt; second_arrives(rt.alloc(), relays.at(0))?);
    Ok(())
}
