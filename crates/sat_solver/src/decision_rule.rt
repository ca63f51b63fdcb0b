ghost use Rattle.std.specs.Prelude.{◌≡◌, ◌<◌, ◌⊎◌, IfOk};
ghost use Rattle.clause_core.specs.Clause.{VariablesExist};

use super::recent_clause::newest_unsatisfied;
use super::variable_queue::VariableQueue;
use clause_core::Lit;
use list_base::NoMemory;
use order_propagator::OrderTrail;
use std::alloc::Global;
use std::marker::Model;

/// How many clauses are learned under the first rule, BerkMin's.
const BERKMIN_CONFLICTS: u32 = 1000;

/// After them, how many clauses are learned from one restart to the next. Rapid restarts are those
/// of PicoSAT (Biere 2008).
const RESTART_INTERVAL: u32 = 5;

/// Proposes the literal of each decision: by BerkMin's rule up to `BERKMIN_CONFLICTS` learned
/// clauses, and then the unset variable that was moved last, with its saved value (Biere and
/// Froehlich 2015).
#[derive(Drop)]
pub struct DecisionRule {
    /// How many clauses were learned.
    learned: u32,
    /// The clauses after this number are satisfied until the next backjump.
    walked: u32,
    queue: VariableQueue,
}

impl Model for DecisionRule {
    ghost use Rattle.sat_solver.specs.inner.Queue.{Proposer};

    ghost Value = { Proposer };

    ghost view = { λ r. record { vars = r.queue.vars } };
}

impl DecisionRule {
    /// The rule before the first conflict.
    pub fn new(alloc: Global, vars: u32) -> Result<DecisionRule, NoMemory>
        ensures { IfOk result (λ rule. rule.vars ≡ vars) }
    {
        Ok(DecisionRule {
            learned: 0,
            walked: 0,
            queue: VariableQueue::new(alloc, vars)?,
        })
    }

    /// Takes note that the trail has backjumped, or is new.
    pub fn begin(&mut self, trail: &OrderTrail)
        ensures { self.new.vars ≡ self.old.vars }
    {
        self.walked = trail.last_number();
    }

    /// A literal to decide, if the rule has one. Whoever takes it looks whether it is unset.
    pub fn propose(&mut self, trail: &OrderTrail) -> Option<Lit>
        requires { self.old.vars ≡ trail.now.vars }
        ensures { self.new.vars ≡ self.old.vars }
    {
        if self.learned < BERKMIN_CONFLICTS {
            newest_unsatisfied(trail, &mut self.walked)
        } else {
            self.queue.newest_unset(trail)
        }
    }

    /// Takes in a learned clause, which would assert a literal at the level, and gives the level to
    /// backjump to: this one, or 0 for a restart.
    pub fn take_in(
        &mut self,
        alloc: Global,
        trail: &OrderTrail,
        clause: &[Lit],
        asserting: u32,
    ) -> Result<u32, NoMemory>
        requires exist { VariablesExist trail.now.vars clause.now }
        requires vars { self.old.vars ≡ trail.now.vars }
        ensures level { IfOk result (λ level. (level ≡ 0) ⊎ (level ≡ asserting)) }
        ensures vars { self.new.vars ≡ self.old.vars }
    {
        self.queue.move_to_front(alloc, clause)?;
        self.learned = self.learned.saturating_add(1);
        let level = if self.restarts() { 0 } else { asserting };
        // The values that the backjump takes are saved, and the one that the clause asserts.
        let mut position = trail.len();
        while position > 0 {
            position -= 1;
            let lit = trail.at(position);
            match trail.level_of(lit.var) {
                Some(found) if found > level => self.queue.save(lit),
                _ => break,
            }
        }
        for lit in clause {
            if trail.level_of(lit.var) == Some(trail.level()) {
                self.queue.save(*lit);
            }
        }
        Ok(level)
    }

    /// Whether the search starts again at level 0.
    fn restarts(&self) -> bool {
        self.learned == BERKMIN_CONFLICTS
            || self.learned > BERKMIN_CONFLICTS && self.learned.is_multiple_of(RESTART_INTERVAL)
    }
}
