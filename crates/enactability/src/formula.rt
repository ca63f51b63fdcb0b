ghost use Rattle.std.specs.Prelude.{◌<◌, ◌≤◌, length, IfOk, OnOk};
ghost use Rattle.clause_core.specs.Written.{AppendsClauses};
ghost use Rattle.clause_encoding.specs.Formula.{safety_variables};
ghost use Rattle.clause_encoding.specs.Ordered.{IsSharedFormula};
ghost use Rattle.clause_encoding.specs.Variables.{sent};
ghost use Rattle.order_axioms.specs.Formula.{whole};
ghost use Rattle.enactability.specs.EnactFormula.{IsEnactFormula, sent_clause};
ghost use Rattle.enactability.specs.inner.Sent.{AlsoSends};

use bspl_types::Admitted;
use clause_core::{ClauseList, Formula, positive, push_clause};
use clause_encoding::{ordered_families, safety_variables, sent};
use list_base::{NoMemory, TryClone};
use order_axioms::OrderedFormula;
use std::alloc::Global;

/// The formula of the message, whose order clauses are known by number and not stored.
pub(crate) fn ordered_enact_formula(
    alloc: Global,
    a: &Admitted,
    message: u32,
) -> Result<OrderedFormula, NoMemory>
    requires { message < length a.now.messages }
    ensures { IfOk result (λ f. IsEnactFormula a.now message (whole f)) }
{
    let shared = shared_formula(alloc, a)?;
    with_sent(alloc, &shared, message)
}

/// The clauses that all formulas share, over the variables of the safety formula.
pub(crate) fn shared_formula(alloc: Global, a: &Admitted) -> Result<OrderedFormula, NoMemory>
    ensures { IfOk result (λ f. IsSharedFormula a.now (safety_variables a.now) (whole f)) }
{
    let vars = safety_variables(alloc, a)?;
    ordered_families(alloc, a, vars)
}

/// The formula with the clause that the message is sent.
pub(crate) fn with_sent(
    alloc: Global,
    shared: &OrderedFormula,
    message: u32,
) -> Result<OrderedFormula, NoMemory>
    requires few { message < 64 }
    requires exists { sent message ≤ (whole shared.now).vars }
    ensures { IfOk result (λ f. AlsoSends message (whole shared.now) (whole f)) }
{
    let mut clauses = shared.stored.clauses.try_clone()?;
    push_sent(&mut clauses, alloc, message)?;
    let vars = shared.stored.vars;
    let stored = Formula { vars, clauses };
    let order = shared.order;
    Ok(OrderedFormula { order, stored })
}

/// Appends the clause that the message is sent.
fn push_sent(clauses: &mut ClauseList, alloc: Global, message: u32) -> Result<(), NoMemory>
    requires { message < 64 }
    ensures { OnOk result (AppendsClauses clauses.old clauses.new (sent_clause message)) }
{
    let lits = [positive(sent(message))];
    push_clause(clauses, alloc, &lits)
}
