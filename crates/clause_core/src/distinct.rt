ghost use Rattle.std.specs.Prelude.{◌≤◌, ◌↔◌, IsTrue, IfOk, OnOk, Contains};
ghost use Rattle.std.specs.List.Sorted.{IsNonDecreasingBy, IsPermutation};
ghost use Rattle.clause_core.specs.declared.literal.Lit.{Lit};
ghost use Rattle.clause_core.specs.Literal.{rank};
ghost use Rattle.clause_core.specs.Clause.{IsAscending, HasExactly};
ghost use Rattle.clause_core.specs.inner.Insertion.{Inserts};

use super::literal::{Lit, Lits};
use list_base::NoMemory;
use std::alloc::Global;

/// The literals in the order of their ranks, each as often as in the list.
pub fn sorted(alloc: Global, lits: &[Lit]) -> Result<Lits, NoMemory>
    ensures rising { IfOk result (λ sorted. IsNonDecreasingBy rank sorted.items) }
    ensures moved { IfOk result (λ sorted. IsPermutation lits.now sorted.items) }
{
    let mut sorted = Lits::from_slice(alloc, lits)?;
    sorted.as_mut_slice().sort_unstable_by_key(|lit| lit.rank());
    Ok(sorted)
}

/// Whether each literal comes before the next.
pub fn ascend(lits: &[Lit]) -> bool
    ensures { IsTrue result → IsAscending lits.now }
{
    for i in 1..lits.len() {
        if lits[i - 1].rank() >= lits[i].rank() {
            return false;
        }
    }
    true
}

/// The literals of a sorted list, each of them once.
pub fn distinct(alloc: Global, sorted: &[Lit]) -> Result<Lits, NoMemory>
    requires { IsNonDecreasingBy rank sorted.now }
    ensures ascending { IfOk result (λ kept. IsAscending kept.items) }
    ensures members { IfOk result (λ kept. HasExactly kept.items sorted.now) }
{
    let mut kept = Lits::new(alloc);
    for lit in sorted {
        add(&mut kept, *lit)?;
    }
    Ok(kept)
}

/// Appends the literal, unless it is the last one already.
fn add(kept: &mut Lits, lit: Lit) -> Result<(), NoMemory>
    requires ascends { IsAscending kept.old.items }
    requires none_above { (l : Lit) → Contains kept.old.items l → rank l ≤ rank lit }
    ensures { OnOk result (Inserts kept.old.items lit kept.new.items) }
{
    if ends_in(kept.as_slice(), lit) {
        return Ok(());
    }
    kept.push(lit)?;
    Ok(())
}

/// Whether the literal is the last one. An ascending list has it nowhere else.
fn ends_in(kept: &[Lit], lit: Lit) -> bool
    requires ascends { IsAscending kept.now }
    requires none_above { (l : Lit) → Contains kept.now l → rank l ≤ rank lit }
    ensures { IsTrue result ↔ Contains kept.now lit }
{
    match kept {
        [] => false,
        [.., last] => last.rank() == lit.rank(),
    }
}
