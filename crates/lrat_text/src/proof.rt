ghost use Rattle.std.specs.Prelude.{◌≡◌, ◌≢◌, ◌+◌, ◌^◌, ◌<◌, ◌↔◌, [], ◌∷◌, length, Contains, IfOk, OnOk, MatchOption, IsOkUnless};
ghost use Rattle.clause_core.specs.Numbering.{HasNumber, Numbering, live};
ghost use Rattle.log_checker.specs.Derivation.{IsAcceptedWith};
ghost use Rattle.log_checker.specs.FirstFailure.{FailsFirst};
ghost use Rattle.refutation_log.specs.Ledger.{all_live};
ghost use Rattle.refutation_log.specs.Resolution.{Accepts, Derives, LogResolves};
ghost use Rattle.lrat_text.specs.Lrat.{Add};
ghost use Rattle.lrat_text.specs.Proof.{IsProofOf};
ghost use Rattle.lrat_text.specs.Text.{line_text};
ghost use Rattle.lrat_text.specs.inner.Lines.{HasLines, IsAdded};

use super::hints::hints_of;
use super::lines::{push_added, push_deleted};
use clause_core::{Clause, Formula, Lit};
use list_base::{Bytes, NoMemory};
use log_checker::{Reject, derived_clauses};
use refutation_log::{Chain, EntryRef, Log, steps_are_counted};
use std::alloc::Global;

/// The text of a proof in LRAT form that the formula has no model, by the steps and the removals of
/// a log. A log that is not accepted is rejected as `check_log` rejects it.
pub fn lrat_proof(alloc: Global, f: &Formula, log: &Log) -> Result<Bytes, Reject>
    requires { length f.now.clauses + length log.now.steps < 2 ^ 32 }
    ensures ok { IfOk result (IsProofOf f.now log.now) }
    ensures accepts { Accepts f.now log.now → IsOkUnless result Reject.NoMemory }

    // Memory aside, the answer is exactly the first failure.
    ensures rejects { result ≢ Err Reject.NoMemory →
        (e : Reject) → ((result ≡ Err e) ↔ FailsFirst f.now log.now e) }
{
    let derived = derived_clauses(alloc, f, log)?;
    Ok(proof_of(alloc, f, log, derived.as_slice())?)
}

/// The text of the proof by a log that is accepted, and derives these clauses.
fn proof_of(alloc: Global, f: &Formula, log: &Log, derived: &[Clause]) -> Result<Bytes, NoMemory>
    requires few { length f.now.clauses + length log.now.steps < 2 ^ 32 }
    requires accepted { IsAcceptedWith f.now log.now derived.now }
    ensures { IfOk result (IsProofOf f.now log.now) }
{
    match empty_number(f.clauses.as_slice()) {
        Some(number) => proof_at_once(alloc, f, number),
        None => proof_by_log(alloc, f, log, derived),
    }
}

/// The number of the first empty clause.
fn empty_number(clauses: &[Clause]) -> Option<u32>
    requires { length clauses.now < 2 ^ 32 }
    ensures { MatchOption result (¬ Contains clauses.now [])
        (λ n. HasNumber (live (all_live clauses.now)) n []) }
{
    for (index, clause) in clauses.iter().enumerate() {
        if clause.lits().is_empty() {
            return Some(index as u32 + 1);
        }
    }
    None
}

/// The text of the proof if the clause of the number is empty.
fn proof_at_once(alloc: Global, f: &Formula, number: u32) -> Result<Bytes, NoMemory>
    requires { length f.now.clauses < 2 ^ 32 }
    ensures { IfOk result (λ text.
        text ≡ line_text (Add (length f.now.clauses + 1) [] (number ∷ []))) }
{
    let mut text = Bytes::new(alloc);
    push_added(&mut text, f.clauses.len() as u64 + 1, &[], &[number])?;
    Ok(text)
}

/// The text of a line for each entry of the log.
fn proof_by_log(
    alloc: Global,
    f: &Formula,
    log: &Log,
    derived: &[Clause],
) -> Result<Bytes, NoMemory>
    requires few { length f.now.clauses + length log.now.steps < 2 ^ 32 }
    requires resolves { LogResolves f.now log.now derived.now }
    ensures { IfOk result (HasLines f.now log.now derived.now) }
{
    // law: a log that resolves derives a clause for each step
    steps_are_counted();
    let mut text = Bytes::new(alloc);
    let mut entries = log.entries();
    let mut done = 0;
    while let Some(entry) = entries.next() {
        let last = f.clauses.len() as u64 + done as u64;
        match entry {
            EntryRef::Step(chain) => {
                push_step(alloc, &mut text, last + 1, derived[done].lits(), chain)?;
                done += 1;
            }
            EntryRef::Drop(numbers) => push_deleted(&mut text, last, numbers)?,
        }
    }
    Ok(text)
}

/// Appends the line of a step, which derives this clause.
fn push_step(
    alloc: Global,
    text: &mut Bytes,
    id: u64,
    clause: &[Lit],
    chain: &Chain,
) -> Result<(), NoMemory>
    ensures { (numbering : Numbering) → Derives numbering chain.now clause.now →
        OnOk result (IsAdded numbering id clause.now text.old text.new) }
{
    let hints = hints_of(alloc, clause, chain)?;
    push_added(text, id, clause, hints.as_slice())
}
