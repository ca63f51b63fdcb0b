ghost use Rattle.std.specs.Prelude.{IfSome, IsSome};
ghost use Rattle.clause_core.specs.Clause.{VariablesExist};
ghost use Rattle.sat_trail.specs.State.{IsNumberUpTo, numbering_of};

use super::var_marks::VarMarks;
use clause_core::Lit;
use list_base::NoMemory;
use order_propagator::OrderTrail;
use std::alloc::Global;

/// How far reasons are followed from a literal of the clause.
const DEEPEST: u32 = 500;

/// Finds the literals of a false clause that its other literals imply (Sorensson and Biere 2009).
/// It proposes and promises nothing: whoever resolves a literal away looks whether it may go.
#[derive(Drop)]
pub struct ImpliedLits {
    /// The variables of the clause, and of the literals that it implies.
    covered: VarMarks,
    /// The variables that were looked at.
    seen: VarMarks,
    /// The levels of the clause below the current one, a bit for those with one rest by 64.
    levels: u64,
    /// The literals that were found, each after those of its reason.
    found: Vec<Lit>,
}

impl ImpliedLits {
    /// Nothing is found yet.
    pub fn new(alloc: Global, vars: u32) -> Result<ImpliedLits, NoMemory> {
        Ok(ImpliedLits {
            covered: VarMarks::new(alloc, vars)?,
            seen: VarMarks::new(alloc, vars)?,
            levels: 0,
            found: Vec::new(alloc),
        })
    }

    /// What was found: if the literals are resolved away from the last to the first, each by its
    /// reason, then none of them is left.
    pub fn as_slice(&self) -> &[Lit] {
        self.found.as_slice()
    }

    /// Finds the literals of the clause that the others imply, and the literals that come in when
    /// those are resolved away.
    pub fn find(&mut self, trail: &OrderTrail, clause: &[Lit]) -> Result<(), NoMemory>
        requires { VariablesExist trail.now.vars clause.now }
    {
        self.begin(trail, clause);
        for lit in clause {
            self.covers(trail, *lit, DEEPEST)?;
        }
        Ok(())
    }

    /// Takes in the clause.
    fn begin(&mut self, trail: &OrderTrail, clause: &[Lit])
        requires { VariablesExist trail.now.vars clause.now }
    {
        self.covered.clear();
        self.seen.clear();
        self.levels = 0;
        self.found.clear();
        let current = trail.level();
        for lit in clause {
            self.covered.add(lit.var);
            match trail.level_of(lit.var) {
                Some(level) if level < current => self.levels |= level_bit(level),
                _ => {}
            }
        }
    }

    /// Whether the literal is in the clause or implied by it. Each is looked at once.
    fn covers(&mut self, trail: &OrderTrail, lit: Lit, depth: u32) -> Result<bool, NoMemory>
        requires { IsNumberUpTo trail.now.vars lit.var }
    {
        if self.seen.has(lit.var) || depth == 0 {
            return Ok(self.covered.has(lit.var));
        }
        self.seen.add(lit.var);
        let Some(reason) = self.reason(trail, lit.var) else {
            return Ok(self.covered.has(lit.var));
        };
        // law: what every trail keeps
        trail.is_trail();
        for other in trail.clause(reason).lits() {
            if other.var != lit.var && !self.covers(trail, *other, depth - 1)? {
                return Ok(self.covered.has(lit.var));
            }
        }
        self.covered.add(lit.var);
        self.found.push(lit)?;
        Ok(true)
    }

    /// The number of the variable's reason, if it was set at a level of the clause.
    fn reason(&self, trail: &OrderTrail, var: u32) -> Option<u32>
        requires { IsNumberUpTo trail.now.vars var }
        ensures { IfSome result (λ number. IsSome (numbering_of trail.now number)) }
    {
        let level = trail.level_of(var)?;
        let reason = trail.reason(var)?;
        if self.levels & level_bit(level) != 0 && trail.has_clause(reason) {
            Some(reason)
        } else {
            None
        }
    }
}

/// The bit of a level.
fn level_bit(level: u32) -> u64 {
    1 << (level % 64)
}
