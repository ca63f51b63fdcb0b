ghost use Rattle.std.specs.Prelude.{◌≡◌, IfSome, IfNone};
ghost use Rattle.refutation_log.specs.Ledger.{without_all, AllRemoved, IsLive};
ghost use Rattle.log_checker.specs.FirstFailure.{LacksLive};

use super::clause_table::ClauseTable;

/// Ends the life of the clauses of the numbers, one after the other, up to the first number that is
/// of no live clause. That one is reported, counted from 1.
pub fn remove_all(table: &mut ClauseTable<'_>, numbers: &[u32]) -> Option<u64>
    ensures live { IfNone result (AllRemoved IsLive table.old.ledger numbers.now) }
    ensures ledger { IfNone result
        (table.new.ledger ≡ without_all table.old.ledger numbers.now) }
    ensures failed { IfSome result (LacksLive table.old.ledger numbers.now) }
    ensures formula { table.new.formula ≡ table.old.formula }
    ensures derived { table.new.derived ≡ table.old.derived }
{
    for (index, number) in numbers.iter().enumerate() {
        if !table.remove(*number) {
            return Some(index as u64 + 1);
        }
    }
    None
}
