ghost use Rattle.std.specs.Prelude.{◌≡◌, ◌<◌, ◌≤◌, length, IfOk};
ghost use Rattle.order_axioms.specs.Formula.{whole};
ghost use Rattle.enactability.specs.EnactFormula.{IsEnactFormula};

use super::formula::ordered_enact_formula;
use super::laws::enact_clauses_are_few;
use bspl_types::Admitted;
use clause_core::Formula;
use clause_encoding::clauses_are_as_many;
use list_base::{NoMemory, Seq, TryClone};
use order_axioms::{OrderNumbers, OrderedFormula};
use std::alloc::Global;

/// The clauses that an enactment in which the message is sent would satisfy.
pub fn enact_formula(alloc: Global, a: &Admitted, message: u32) -> Result<Formula, NoMemory>
    requires { message < length a.now.messages }
    ensures exact { IfOk result (IsEnactFormula a.now message) }
    ensures few { IfOk result (λ f. length f.clauses ≤ 8000001) }
{
    // law: there is a clause for each that is written
    clauses_are_as_many();
    // law: these are few
    enact_clauses_are_few();
    let ordered = ordered_enact_formula(alloc, a, message)?;
    all_stored(alloc, &ordered)
}

/// The formula with a copy of each clause, those of the order first.
fn all_stored(alloc: Global, f: &OrderedFormula) -> Result<Formula, NoMemory>
    ensures vars { IfOk result (λ plain. plain.vars ≡ (whole f.now).vars) }
    ensures clauses { IfOk result (λ plain. plain.clauses ≡ (whole f.now).clauses) }
{
    let mut clauses = Seq::new(alloc);
    OrderNumbers::new(alloc, f.order)?.push_all(&mut clauses, alloc)?;
    for clause in f.stored.clauses.as_slice() {
        clauses.push(clause.try_clone()?)?;
    }
    let vars = f.stored.vars;
    Ok(Formula { vars, clauses })
}
