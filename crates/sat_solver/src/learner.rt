ghost use Rattle.std.specs.Prelude.{◌≡◌};

use super::decision_rule::DecisionRule;
use super::false_lits::FalseLits;
use super::given_formula::GivenFormula;
use super::implication::ImpliedLits;
use list_base::{NoMemory, Seq};
use order_propagator::OrderTrail;
use refutation_log::{ChainList, Log};
use std::alloc::Global;

/// The steps so far, and the trail and the lists with which a step is found.
#[derive(Drop)]
pub struct Learner<'f> {
    /// A step for each clause that was learned.
    pub steps: ChainList,
    /// The formula's clauses and the learned ones, and the literals that are set.
    pub trail: OrderTrail<'f>,
    /// The literals of the clause that is being resolved.
    pub lits: FalseLits,
    /// What proposes which of them to resolve away.
    pub implied: ImpliedLits,
    /// What proposes the next decision.
    pub rule: DecisionRule,
    pub ghost set_fits: { lits.set.vars ≡ trail.vars },
    pub ghost rule_fits: { rule.vars ≡ trail.vars },
}

impl<'f> Learner<'f> {
    ghost use Rattle.std.specs.Prelude.{◌≡◌, ◌^◌, ◌<◌, [], length, IfOk};
    ghost use Rattle.sat_solver.specs.inner.Learner.{IsNewLearner};

    /// Nothing is learned and set.
    pub fn new(alloc: Global, f: &GivenFormula<'f>) -> Result<Learner<'f>, NoMemory>
        requires { length f.now.clauses < 2 ^ 32 }
        ensures { IfOk result (IsNewLearner f.now) }
    {
        let trail = f.trail(alloc)?;
        let lits = FalseLits::new(alloc, f.vars())?;
        let implied = ImpliedLits::new(alloc, f.vars())?;
        let rule = DecisionRule::new(alloc, f.vars())?;
        Ok(Learner {
            steps: Seq::new(alloc),
            trail,
            lits,
            implied,
            rule,
        })
    }

    /// The log of the steps.
    pub fn into_log(self, alloc: Global) -> Log
        ensures steps { result.steps ≡ self.entry.steps }
        ensures removals { result.removals ≡ [] }
    {
        let Learner { steps, .. } = self;
        Log::plain(alloc, steps)
    }
}
