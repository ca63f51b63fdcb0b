ghost use Rattle.std.specs.Prelude.{IfOk};
ghost use Rattle.order_axioms.specs.Formula.{whole};
ghost use Rattle.questions.specs.Subject.{IsAbout};
ghost use Rattle.question_formula.specs.Formula.{IsQuestionFormula};
ghost use Rattle.question_formula.specs.Size.{FitsLog};

use super::circuits::question_circuit;
use super::laws::condition_variables_exist;
use super::own_clauses::put_condition;
use bspl_types::Admitted;
use circuit_clauses::Circuit;
use clause_encoding::{ordered_families, plain_variables};
use list_base::NoMemory;
use order_axioms::OrderedFormula;
use questions::Question;
use std::alloc::Global;
use std::marker::Model;

/// The formulas of questions on one protocol, one after another. The clauses that they share are
/// made once; those of a question stand behind them until the next one. Contracts see the protocol
/// and the formula that is there.
#[derive(Drop)]
pub struct QuestionFormulas<'a> {
    protocol: &'a Admitted,
    formula: OrderedFormula,
    /// How many of the stored clauses are shared.
    shared: usize,
    /// How many variables all questions share.
    vars: u32,
}

impl<'a> Model for QuestionFormulas<'a> {
    ghost use Rattle.question_formula.specs.Formula.{ProtocolFormula};
    ghost use Rattle.question_formula.specs.inner.Shared.{KeepsShared};

    ghost Value = { ProtocolFormula };

    ghost view = { λ s. record { protocol = s.protocol.now; formula = s.formula } };

    ghost invariant = { λ s. KeepsShared s.protocol.now s.shared s.vars s.formula };
}

impl<'a> QuestionFormulas<'a> {
    ghost use Rattle.std.specs.Prelude.{◌≡◌, IfOk, OnOk};
    ghost use Rattle.circuit_clauses.specs.Condition.{IsOver, condition_of};
    ghost use Rattle.clause_encoding.specs.Formula.{plain_variables};
    ghost use Rattle.clause_encoding.specs.Ordered.{IsSharedFormula};
    ghost use Rattle.clause_encoding.specs.Variables.{variable_count};
    ghost use Rattle.order_axioms.specs.Formula.{whole};
    ghost use Rattle.question_formula.specs.Formula.{IsFormulaOfCondition};
    ghost use Rattle.question_formula.specs.Size.{FitsLog};

    /// Makes the shared clauses, and no others yet.
    pub fn new(alloc: Global, protocol: &'a Admitted) -> Result<QuestionFormulas<'a>, NoMemory>
        ensures protocol { IfOk result (λ formulas. formulas.protocol ≡ protocol.now) }
        ensures shared { IfOk result (λ formulas.
            IsSharedFormula protocol.now (plain_variables protocol.now) (whole formulas.formula)) }
    {
        let formula = ordered_families(alloc, protocol, plain_variables(protocol.expanded()))?;
        let shared = formula.stored.clauses.len();
        let vars = formula.stored.vars;
        Ok(QuestionFormulas {
            protocol,
            formula,
            shared,
            vars,
        })
    }

    /// Puts the clauses that the condition is met in the place of those of the last one. Memory
    /// counts as run out where the formula is too large for a log; then there may be a part of them,
    /// or still the last formula.
    pub fn put(&mut self, alloc: Global, c: &Circuit) -> Result<(), NoMemory>
        requires { IsOver (variable_count (plain_variables self.old.protocol))
            (condition_of c.now) }
        ensures exact { OnOk result (IsFormulaOfCondition self.old.protocol (condition_of c.now)
            (whole self.new.formula)) }
        ensures fits { OnOk result (FitsLog (whole self.new.formula)) }
        ensures same { self.new.protocol ≡ self.old.protocol }
    {
        put_condition(alloc, &mut self.formula, self.shared, self.vars, c)
    }

    /// Lends the formula that is there.
    pub fn formula(&self) -> &OrderedFormula
        ensures { result.now ≡ self.now.formula }
    {
        &self.formula
    }

    /// Hands out the formula that is there.
    pub fn into_formula(self) -> OrderedFormula
        ensures { result ≡ self.entry.formula }
    {
        self.formula
    }
}

/// The clauses that an enactment would satisfy in which the answer to the question is yes. The
/// order clauses are known by number and not stored. Memory counts as run out where the formula is
/// too large for a log.
pub fn question_formula(
    alloc: Global,
    a: &Admitted,
    q: &Question,
) -> Result<OrderedFormula, NoMemory>
    requires { IsAbout a.now q.now }
    ensures exact { IfOk result (λ f. IsQuestionFormula a.now q.now (whole f)) }
    ensures fits { IfOk result (λ f. FitsLog (whole f)) }
{
    // law: the variables of the condition are among those that all questions share
    condition_variables_exist();
    let x = a.expanded();
    let circuit = question_circuit(alloc, x, plain_variables(x), q)?;
    let mut formulas = QuestionFormulas::new(alloc, a)?;
    formulas.put(alloc, &circuit)?;
    Ok(formulas.into_formula())
}
