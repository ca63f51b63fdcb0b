ghost use Rattle.std.specs.Prelude.{◌≡◌, ◌+◌, ◌^◌, ◌<◌, [], ◌∷◌, ◌++◌, length, All, IfOk, IfErr, OnOk};
ghost use Rattle.clause_core.specs.Clause.{VariablesExist};
ghost use Rattle.refutation_log.specs.Cursor.{lent_entry};
ghost use Rattle.refutation_log.specs.Entries.{entries, steps_of};
ghost use Rattle.refutation_log.specs.Ledger.{all_live, IsLive};
ghost use Rattle.refutation_log.specs.Resolution.{Runs};
ghost use Rattle.refutation_log.specs.declared.refutation.Entry.TheVariants as entry;
ghost use Rattle.log_checker.specs.inner.Marks.{IsClear};
ghost use Rattle.log_checker.specs.inner.Stops.{EntryStops, EntriesStop, rejection};
ghost use Rattle.log_checker.specs.inner.Table.{EntryRuns};

use super::chains::chain_clause;
use super::clause_table::ClauseTable;
use super::mark_table::MarkTable;
use super::refusal::{ChainError, Reject};
use super::removals::remove_all;
use order_axioms::FormulaClauses;
use refutation_log::{Chain, EntryRef, Log, entries_append};
use std::alloc::Global;

/// The clauses once the log was run over those of a formula, up to the first entry that fails.
pub fn run_log<'a>(
    alloc: Global,
    vars: u32,
    formula: FormulaClauses<'a>,
    log: &Log,
) -> Result<ClauseTable<'a>, Reject>
    requires few { length formula + length log.now.steps < 2 ^ 32 }
    requires exist { All (VariablesExist vars) formula }
    ensures formula { IfOk result (λ table. table.formula ≡ formula.entry) }
    ensures ok { IfOk result (λ table. Runs IsLive (all_live formula.entry) (entries log.now)
        table.derived table.ledger) }
    ensures err { IfErr result (EntriesStop formula.entry (entries log.now)) }
{
    // law: entries after entries run on from where those ended
    entries_append();
    let mut table = ClauseTable::new(alloc, formula)?;
    let mut marks = MarkTable::new(alloc, vars)?;
    let mut entries = log.entries();
    while let Some(entry) = entries.next() {
        run_entry(alloc, entry, &mut table, &mut marks)?;
    }
    Ok(table)
}

/// Runs one entry over the live clauses of the table. Nothing is marked before nor after.
#[tactic(auto, using(crate::proofs::RunningLog::drop_runs, crate::proofs::RunningLog::drop_stops))]
fn run_entry(
    alloc: Global,
    entry: EntryRef<'_>,
    table: &mut ClauseTable<'_>,
    marks: &mut MarkTable,
) -> Result<(), Reject>
    requires few { length table.old.derived
        + length (steps_of (lent_entry entry ∷ [])) < 2 ^ 32 }
    requires clear { IsClear marks.old (table.old.formula ++ table.old.derived) }
    ensures ok { OnOk result (EntryRuns table.old (lent_entry entry.entry) table.new) }
    ensures clear { OnOk result (IsClear marks.new (table.new.formula ++ table.new.derived)) }
    ensures err { IfErr result
        (EntryStops (length table.old.derived) table.old.ledger (lent_entry entry.entry)) }
{
    match entry {
        EntryRef::Step(chain) => run_step(alloc, chain, table, marks),
        EntryRef::Drop(numbers) => match remove_all(table, numbers) {
            None => Ok(()),
            Some(item) => Err(Reject::NoDrop {
                after: table.derived_count() as u32,
                item,
            }),
        },
    }
}

/// Derives the clause of a step, which is live from then on.
#[tactic(auto, using(crate::proofs::RunningLog::step_runs, crate::proofs::RunningLog::step_stops))]
fn run_step(
    alloc: Global,
    chain: &Chain,
    table: &mut ClauseTable<'_>,
    marks: &mut MarkTable,
) -> Result<(), Reject>
    requires few { length table.old.derived + 1 < 2 ^ 32 }
    requires clear { IsClear marks.old (table.old.formula ++ table.old.derived) }
    ensures ok { OnOk result (EntryRuns table.old (entry.Step chain.now) table.new) }
    ensures clear { OnOk result (IsClear marks.new (table.new.formula ++ table.new.derived)) }
    ensures err { IfErr result
        (EntryStops (length table.old.derived) table.old.ledger (entry.Step chain.now)) }
{
    match chain_clause(alloc, table, chain, marks) {
        Ok(clause) => {
            table.push(clause)?;
            Ok(())
        }
        Err(error) => Err(rejected(table.derived_count() as u32 + 1, error)),
    }
}

/// The answer if the step of this number has no clause.
fn rejected(step: u32, error: ChainError) -> Reject
    ensures { result ≡ rejection step error }
{
    match error {
        ChainError::NoClause => Reject::NoClause { step },
        ChainError::NoPivot { link } => Reject::NoPivot { step, link },
        ChainError::NoMemory => Reject::NoMemory,
    }
}
