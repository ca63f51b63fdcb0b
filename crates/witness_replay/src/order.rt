ghost use Rattle.std.specs.Prelude.{◌≡◌, ◌≢◌, ◌≤◌, length, IfOk};
ghost use Rattle.std.specs.List.{All};
ghost use Rattle.clause_core.specs.Assignment.{valuation};
ghost use Rattle.clause_core.specs.Clause.{SatisfiesAll};
ghost use Rattle.clause_encoding.specs.Families.{order_clauses};
ghost use Rattle.clause_encoding.specs.Variables.{IsKind, IsSmall, variable_count};
ghost use Rattle.witness_replay.specs.Witness.{AreOrdered};
ghost use Rattle.witness_replay.specs.inner.Order.{inserted, is_before, IsAnotherKind};

use clause_core::Assignment;
use clause_encoding::Variables;
use list_base::{NoMemory, NumberList, Seq};
use std::alloc::Global;

/// The event kinds that the assignment makes occur, in the order of its order variables.
pub(crate) fn ordered_kinds(
    alloc: Global,
    vars: Variables,
    s: &Assignment,
) -> Result<NumberList, NoMemory>
    requires small { IsSmall vars }
    requires all { variable_count vars ≤ length s.now }
    requires satisfied { SatisfiesAll (valuation s.now) (order_clauses vars) }
    ensures { IfOk result (AreOrdered vars (valuation s.now)) }
{
    let mut kinds = Seq::new(alloc);
    for kind in 1..vars.kinds + 1 {
        if s.value(kind) {
            kinds = insert(alloc, vars, s, kinds.as_slice(), kind)?;
        }
    }
    Ok(kinds)
}

/// The kinds with one more: it comes after those that stand before it.
fn insert(
    alloc: Global,
    vars: Variables,
    s: &Assignment,
    kinds: &[u32],
    kind: u32,
) -> Result<NumberList, NoMemory>
    requires small { IsSmall vars }
    requires all { variable_count vars ≤ length s.now }
    requires kind { IsKind vars kind }
    requires others { All (IsAnotherKind vars kind) kinds.now }
    ensures { IfOk result (λ list. list ≡ inserted vars (valuation s.now) kind kinds.now) }
{
    let mut list = Seq::new(alloc);
    for k in kinds {
        if comes_before(vars, s, *k, kind) {
            list.push(*k)?;
        }
    }
    list.push(kind)?;
    for k in kinds {
        if !comes_before(vars, s, *k, kind) {
            list.push(*k)?;
        }
    }
    Ok(list)
}

/// Whether the assignment puts kind `i` before kind `j`.
fn comes_before(vars: Variables, s: &Assignment, i: u32, j: u32) -> bool
    requires small { IsSmall vars }
    requires all { variable_count vars ≤ length s.now }
    requires kinds { (IsKind vars i) × (IsKind vars j) }
    requires apart { i ≢ j }
    ensures { result ≡ is_before vars (valuation s.now) i j }
{
    let lit = vars.before(i, j);
    if lit.positive {
        s.value(lit.var)
    } else {
        !s.value(lit.var)
    }
}
