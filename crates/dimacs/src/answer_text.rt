ghost use Rattle.std.specs.Prelude.{◌≡◌, ◌++◌, IfOk, OnOk};
ghost use Rattle.dimacs.specs.AnswerText.{answer_text, assignment_lines, count_text, stats_line, value_line, value_lines};

use super::verdict::Verdict;
use clause_core::{Assignment, Lit};
use list_base::{Bytes, NoMemory};
use refutation_log::push_pivot;
use sat_solver::SearchStats;
use std::alloc::Global;
use text_lines::push_decimal;

/// The lines of a verdict.
pub fn answer_of(alloc: Global, verdict: Verdict) -> Result<Bytes, NoMemory>
    ensures { IfOk result (λ text. text ≡ answer_text verdict) }
{
    match verdict {
        Verdict::Satisfiable { assignment, stats } => {
            let mut text = stats_text(alloc, stats)?;
            push_assignment(&mut text, &assignment)?;
            Ok(text)
        }
        Verdict::Unsatisfiable { stats } => with_line(alloc, stats, b"s UNSATISFIABLE\n"),
        Verdict::Proved { proof } => Ok(proof),
        Verdict::Unknown { stats } => with_line(alloc, stats, b"s UNKNOWN\n"),
    }
}

/// The line that says how much was done, and this one.
fn with_line(alloc: Global, stats: SearchStats, line: &[u8]) -> Result<Bytes, NoMemory>
    ensures { IfOk result (λ text. text ≡ stats_line stats ++ line.now) }
{
    let mut text = stats_text(alloc, stats)?;
    text.append(line)?;
    Ok(text)
}

/// The line that says how much was done.
fn stats_text(alloc: Global, stats: SearchStats) -> Result<Bytes, NoMemory>
    ensures { IfOk result (λ text. text ≡ stats_line stats) }
{
    let mut text = Bytes::new(alloc);
    push_stats(&mut text, stats)?;
    Ok(text)
}

/// Appends the lines of an assignment that satisfies.
fn push_assignment(text: &mut Bytes, assignment: &Assignment) -> Result<(), NoMemory>
    ensures { OnOk result (text.new ≡ text.old ++ assignment_lines assignment.now) }
{
    text.append(b"s SATISFIABLE\n")?;
    push_values(text, assignment)?;
    text.append(b"v 0\n")
}

/// Appends the line that says how much was done.
fn push_stats(text: &mut Bytes, stats: SearchStats) -> Result<(), NoMemory>
    ensures { OnOk result (text.new ≡ text.old ++ stats_line stats) }
{
    push_count(text, b"c conflicts ", stats.conflicts)?;
    push_count(text, b" decisions ", stats.decisions)?;
    push_count(text, b" propagations ", stats.propagations)?;
    text.push(b'\n')
}

/// Appends a number after its name.
fn push_count(text: &mut Bytes, name: &[u8], count: u32) -> Result<(), NoMemory>
    ensures { OnOk result (text.new ≡ text.old ++ count_text name.now count) }
{
    text.append(name)?;
    push_decimal(text, u64::from(count))
}

/// Appends a line for each variable.
fn push_values(text: &mut Bytes, assignment: &Assignment) -> Result<(), NoMemory>
    ensures { OnOk result (text.new ≡ text.old ++ value_lines 0 assignment.now) }
{
    for index in 0..assignment.vars() {
        let var = index + 1;
        push_value(
            text,
            Lit {
                var,
                positive: assignment.value(var),
            },
        )?;
    }
    Ok(())
}

/// Appends the line of a literal that is true.
fn push_value(text: &mut Bytes, lit: Lit) -> Result<(), NoMemory>
    ensures { OnOk result (text.new ≡ text.old ++ value_line lit) }
{
    text.append(b"v ")?;
    push_pivot(text, lit)?;
    text.push(b'\n')
}
