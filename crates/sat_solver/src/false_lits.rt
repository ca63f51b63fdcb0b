ghost use Rattle.std.specs.Prelude.{◌≡◌, ◌<◌, ◌≤◌, ◌↔◌, [], IsTrue, IfOk, Contains};
ghost use Rattle.clause_core.specs.Clause.{VariablesExist};
ghost use Rattle.clause_core.specs.Literal.{negated};
ghost use Rattle.clause_core.specs.Propagation.{MakesFalse, Falsifies, OthersFalse};
ghost use Rattle.sat_trail.specs.Entry.{values_of};
ghost use Rattle.sat_solver.specs.inner.Gathered.{is_current, AreFalse};
ghost use Rattle.sat_solver.specs.inner.Gathered.{AddsLiteral, AddsLiterals, ResolvesSet, OthersAreLower};

use super::lit_set::LitSet;
use clause_core::Lit;
use list_base::NoMemory;
use order_propagator::OrderTrail;
use std::alloc::Global;

/// Literals that a trail makes false, with a count of those of the current level.
#[derive(Drop)]
pub struct FalseLits {
    /// The literals.
    pub set: LitSet,
    /// How many of them were set at the current level.
    pub current: u32,
}

impl FalseLits {
    /// No literal yet.
    pub fn new(alloc: Global, vars: u32) -> Result<FalseLits, NoMemory>
        ensures { IfOk result (λ f. f.set ≡ record { vars = vars; lits = [] }) }
    {
        Ok(FalseLits {
            set: LitSet::new(alloc, vars)?,
            current: 0,
        })
    }

    /// Takes all literals out.
    pub fn clear(&mut self)
        ensures set { self.new.set ≡ record self.old.set { lits = [] } }
        ensures current { self.new.current ≡ 0 }
    {
        self.set.clear();
        self.current = 0;
    }

    /// Puts a false literal in.
    pub fn insert(&mut self, trail: &OrderTrail, lit: Lit)
        requires are_false { AreFalse trail.now self.old }
        requires fails { MakesFalse (values_of trail.now.entries) lit }
        ensures are_false { AreFalse trail.now self.new }
        ensures inserted { AddsLiteral self.old.set.lits lit self.new.set.lits }
    {
        // law: what every trail keeps
        trail.is_trail();
        if self.set.insert(lit) {
            self.current += u32::from(is_current(trail, lit));
        }
    }

    /// Puts the literals of a false clause in.
    pub fn insert_all(&mut self, trail: &OrderTrail, clause: &[Lit])
        requires are_false { AreFalse trail.now self.old }
        requires fails { Falsifies (values_of trail.now.entries) clause.now }
        ensures are_false { AreFalse trail.now self.new }
        ensures inserted { AddsLiterals self.old.set.lits clause.now self.new.set.lits }
    {
        for lit in clause {
            self.insert(trail, *lit);
        }
    }

    /// Puts the other literals of the clause that forced the negation in place of the literal.
    pub fn resolve(&mut self, trail: &OrderTrail, pivot: Lit, reason: &[Lit])
        requires are_false { AreFalse trail.now self.old }
        requires among { Contains self.old.set.lits pivot }
        requires others { OthersFalse (values_of trail.now.entries) reason.now (negated pivot) }
        ensures are_false { AreFalse trail.now self.new }
        ensures resolved { ResolvesSet self.old.set.lits pivot reason.now self.new.set.lits }
    {
        self.set.remove(pivot);
        self.current -= u32::from(is_current(trail, pivot));
        let forced = pivot.negation();
        for lit in reason {
            if *lit == forced {
                continue;
            }
            self.insert(trail, *lit);
        }
    }
}

/// Whether the literals of the clause but for this one were set at lower levels.
pub fn others_are_lower(trail: &OrderTrail, clause: &[Lit], lit: Lit) -> bool
    requires { VariablesExist trail.now.vars clause.now }
    ensures { IsTrue result ↔ OthersAreLower trail.now clause.now lit }
{
    clause.iter().all(|l| *l == lit || !is_current(trail, *l))
}

/// Whether the literal was set at the current level.
pub fn is_current(trail: &OrderTrail, lit: Lit) -> bool
    requires from_one { 0 < lit.var }
    requires exists { lit.var ≤ trail.now.vars }
    ensures { result ≡ is_current trail.now lit }
{
    match trail.level_of(lit.var) {
        Some(level) => level == trail.level(),
        None => false,
    }
}
