ghost use Rattle.std.specs.Prelude.{◌≡◌, ◌≢◌, ◌+◌, ◌*◌, ◌^◌, ◌<◌, ◌≤◌, [], length, replicate, All, Contains};
ghost use Rattle.std.specs.Prelude.{IfSome, IfNone};
ghost use Rattle.std.specs.Bool.{OnTrue, OnFalse};
ghost use Rattle.clause_core.specs.Clause.{IsAscending, VariablesExist};
ghost use Rattle.clause_core.specs.Propagation.{MakesFalse, OthersFalse};
ghost use Rattle.sat_trail.specs.Entry.{values_of};
ghost use Rattle.sat_trail.specs.State.{IsNumberUpTo};
ghost use Rattle.sat_trail.specs.Trail.{IsOpen, HasTwoOpen};
ghost use Rattle.sat_trail.specs.inner.Attach.{MayWatch, AreClosed, AreChosen};
ghost use Rattle.sat_trail.specs.inner.Attach.{IsAttached, IsFreeBeside, IsNotFreeBeside, AreNotFree, IsLeft};
ghost use Rattle.sat_trail.specs.inner.Watches.{blank};

use super::packed_lit::PackedLit;
use super::set_literals::Entries;
use super::watch_lists::WatchLists;
use clause_core::{Clause, Lit};

/// Whether the literal is another one and not false.
fn may_take(set: &Entries, lit: Lit, kept: Lit) -> bool
    requires { IsNumberUpTo set.now.vars lit.var }
    ensures yes { OnTrue result ((lit ≢ kept) × (¬ MakesFalse (values_of set.now.entries) lit)) }
    ensures no { OnFalse result (lit ≢ kept → MakesFalse (values_of set.now.entries) lit) }
{
    lit != kept && set.value(lit.var) != Some(!lit.positive)
}

/// Whether the literal is another one and not false.
fn may_move(set: &Entries, lit: PackedLit, kept: PackedLit) -> bool
    requires { IsNumberUpTo set.now.vars lit.var }
    ensures yes { OnTrue result ((lit ≢ kept) × (¬ MakesFalse (values_of set.now.entries) lit)) }
    ensures no { OnFalse result (lit ≢ kept → MakesFalse (values_of set.now.entries) lit) }
{
    !lit.is(kept) && !set.is_false(lit)
}

/// A literal of the clause that is not false, other than this one. If there is none, the others
/// are all false.
pub fn not_false(set: &Entries, clause: &[PackedLit], kept: PackedLit) -> Option<PackedLit>
    requires exist { VariablesExist set.now.vars clause.now }
    ensures among { IfSome result (Contains clause.now) }
    ensures differs { IfSome result (λ l. l ≢ kept) }
    ensures found { IfSome result (λ l. ¬ MakesFalse (values_of set.now.entries) l) }
    ensures none { IfNone result (OthersFalse (values_of set.now.entries) clause.now kept) }
{
    for lit in clause {
        if may_move(set, *lit, kept) {
            return Some(*lit);
        }
    }
    None
}

/// Whether the literal is another one that has no value, or was set at the level.
fn is_spare(set: &Entries, lit: Lit, kept: Lit, level: u32) -> bool
    requires { IsNumberUpTo set.now.vars lit.var }
    ensures yes { OnTrue result ((lit ≢ kept) × IsOpen set.now.entries level lit) }
    ensures no { OnFalse result (lit ≢ kept → ¬ IsOpen set.now.entries level lit) }
{
    lit != kept && set.is_open(lit.var, level)
}

/// Whether the literal is another one that has no value, or is true since the level.
fn is_free(set: &Entries, lit: Lit, kept: Lit, level: u32) -> bool
    requires { IsNumberUpTo set.now.vars lit.var }
    ensures yes { OnTrue result (IsFreeBeside set.now.entries level lit kept) }
    ensures no { OnFalse result (IsNotFreeBeside set.now.entries level lit kept) }
{
    is_spare(set, lit, kept, level) && may_take(set, lit, kept)
}

/// The first literal of the clause, other than this one, that has no value or is true since the
/// level.
fn free(set: &Entries, clause: &[Lit], kept: Lit, level: u32) -> Option<Lit>
    requires exist { VariablesExist set.now.vars clause.now }
    ensures among { IfSome result (Contains clause.now) }
    ensures found { IfSome result (λ l. IsFreeBeside set.now.entries level l kept) }
    ensures none { IfNone result (AreNotFree set.now.entries level clause.now kept) }
{
    for lit in clause {
        if is_free(set, *lit, kept, level) {
            return Some(*lit);
        }
    }
    None
}

/// A literal of the clause, other than this one, that is not false, if there is any, and else one
/// that was set at the level.
fn last_left(set: &Entries, clause: &[Lit], kept: Lit, level: u32) -> Option<Lit>
    requires exist { VariablesExist set.now.vars clause.now }
    ensures found { IfSome result (λ l. IsLeft set.now.entries level clause.now l kept) }
    ensures none { IfNone result (AreClosed set.now.entries level clause.now kept) }
{
    let mut found = None;
    for lit in clause {
        if may_take(set, *lit, kept) {
            return Some(*lit);
        }
        if is_spare(set, *lit, kept, level) {
            found = Some(*lit);
        }
    }
    found
}

/// The literal of the clause that is to be watched, other than this one: first of all one that has
/// no value or is true since the level, then another that is true, and else one that was set at
/// the level.
fn best(set: &Entries, clause: &[Lit], kept: Lit, level: u32) -> Option<Lit>
    requires exist { VariablesExist set.now.vars clause.now }
    ensures found { IfSome result (λ l. MayWatch set.now.entries level clause.now l kept) }
    ensures none { IfNone result (AreClosed set.now.entries level clause.now kept) }
{
    if let Some(lit) = free(set, clause, kept, level) {
        return Some(lit);
    }
    last_left(set, clause, kept, level)
}

/// The two literals that a new clause is to watch, if it has as many.
pub fn choose(set: &Entries, clause: &[Lit], level: u32) -> Option<(Lit, Lit)>
    requires exist { VariablesExist set.now.vars clause.now }
    requires open { 2 ≤ length clause.now → HasTwoOpen set.now.entries level clause.now }
    ensures chosen { IfSome result
        (λ pair. AreChosen set.now.entries level clause.now pair.0 pair.1) }
    ensures none { IfNone result (length clause.now < 2) }
{
    let none = Lit {
        var: 0,
        positive: false,
    };
    let one = best(set, clause, none, level)?;
    let other = best(set, clause, one, level)?;
    Some((one, other))
}

/// The first two literals of the clause, if it has as many: with nothing set they may be watched.
fn first_two(set: &Entries, clause: &[Lit]) -> Option<(Lit, Lit)>
    requires none { set.now.entries ≡ [] }
    requires ascending { IsAscending clause.now }
    ensures chosen { IfSome result
        (λ pair. AreChosen set.now.entries 0 clause.now pair.0 pair.1) }
    ensures none { IfNone result (length clause.now < 2) }
{
    match clause {
        [one, other, ..] => Some((*one, *other)),
        _ => None,
    }
}

/// Lets each clause watch two of its literals, if it has as many.
pub fn watch_all(lists: &mut WatchLists, set: &Entries, clauses: &[Clause])
    requires few { length clauses.now < 2 ^ 32 }
    requires exist { All (VariablesExist set.now.vars) clauses.now }
    requires none { set.now.entries ≡ [] }
    requires room { lists.old.cells.items ≡ replicate (length clauses.now + 1) blank }
    requires empty { lists.old.heads.items ≡ replicate (2 * set.now.vars + 2) 0 }
    ensures { IsAttached set.now.vars (length clauses.now) clauses.now lists.new.cells.items
        lists.new.heads.items }
{
    let mut number = 0;
    for clause in clauses {
        number += 1;
        lists.attach(set.vars(), number, first_two(set, clause.lits()));
    }
}
