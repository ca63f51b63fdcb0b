ghost use Rattle.std.specs.Prelude.{◌≡◌, IfOk};
ghost use Rattle.order_axioms.specs.Formula.{whole};
ghost use Rattle.questions.specs.Subject.{IsAbout};
ghost use Rattle.question_formula.specs.Formula.{IsQuestionFormula};
ghost use Rattle.question_formula.specs.Size.{FitsLog};

use super::formula::question_formula;
use bspl_types::Admitted;
use clause_core::Formula;
use list_base::{NoMemory, Seq, TryClone};
use order_axioms::{OrderNumbers, OrderedFormula};
use questions::Question;
use std::alloc::Global;

/// The formula of the question, all of whose clauses are stored.
pub fn plain_question_formula(
    alloc: Global,
    a: &Admitted,
    q: &Question,
) -> Result<Formula, NoMemory>
    requires { IsAbout a.now q.now }
    ensures exact { IfOk result (IsQuestionFormula a.now q.now) }
    ensures fits { IfOk result FitsLog }
{
    let ordered = question_formula(alloc, a, q)?;
    all_stored(alloc, &ordered)
}

/// The formula with a copy of each clause, those of the order first.
fn all_stored(alloc: Global, f: &OrderedFormula) -> Result<Formula, NoMemory>
    ensures vars { IfOk result (λ plain. plain.vars ≡ (whole f.now).vars) }
    ensures clauses { IfOk result (λ plain. plain.clauses ≡ (whole f.now).clauses) }
{
    let mut clauses = Seq::new(alloc);
    OrderNumbers::new(alloc, f.order)?.push_all(&mut clauses, alloc)?;
    for clause in f.stored.clauses.as_slice() {
        clauses.push(clause.try_clone()?)?;
    }
    let vars = f.stored.vars;
    Ok(Formula { vars, clauses })
}
