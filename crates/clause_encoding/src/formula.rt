ghost use Rattle.std.specs.Prelude.{◌≡◌, ◌≤◌, [], length, IfOk, OnOk};
ghost use Rattle.clause_encoding.specs.Formula.{IsFormula, IsLivenessFormula, IsSafetyFormula};
ghost use Rattle.clause_encoding.specs.Formula.{clauses_of, own_clauses, variables_of};
ghost use Rattle.clause_encoding.specs.Ordered.{IsOrderedFormula, IsSharedFormula};
ghost use Rattle.clause_encoding.specs.Variables.{IsSmall, kind_count};
ghost use Rattle.clause_core.specs.Written.{AppendsClauses};
ghost use Rattle.clause_encoding.specs.inner.Order.{clauses_after_order};
ghost use Rattle.order_axioms.specs.Formula.{whole};

use super::base::variables_of;
use super::order::{order_of, push_order};
use super::rest::push_rest;
use super::selection::push_rivals;
use super::shared::push_families;
use super::variables::Variables;
use bspl_types::{Admitted, Expanded, Property};
use clause_core::{ClauseList, Formula};
use list_base::{NoMemory, Seq};
use order_axioms::{OrderedFormula, cycle_clauses_ascend};
use std::alloc::Global;

/// The formula of the protocol and the property: a run that shows that the protocol does not have
/// the property would satisfy it (after Singh 2012).
pub fn formula_of(alloc: Global, property: Property, a: &Admitted) -> Result<Formula, NoMemory>
    ensures exact { IfOk result (IsFormula property a.now) }
    ensures few { IfOk result (λ f. length f.clauses ≤ 8000000) }
{
    let vars = variables_of(alloc, property, a)?;
    let clauses = clauses_with(alloc, property, a.expanded(), vars)?;
    Ok(Formula {
        vars: vars.count(),
        clauses,
    })
}

/// The same formula, whose order clauses are known by number and not stored.
pub fn ordered_formula_of(
    alloc: Global,
    property: Property,
    a: &Admitted,
) -> Result<OrderedFormula, NoMemory>
    ensures exact { IfOk result (IsOrderedFormula property a.now) }
    ensures few { IfOk result (λ f. length (whole f).clauses ≤ 8000000) }
{
    // law: the literals of a clause that forbids a cycle ascend
    cycle_clauses_ascend();
    let vars = variables_of(alloc, property, a)?;
    let clauses = clauses_after_order(alloc, property, a.expanded(), vars)?;
    let order = order_of(vars);
    let stored = Formula {
        vars: vars.count(),
        clauses,
    };
    Ok(OrderedFormula { order, stored })
}

/// The families of every formula, over the variables. The order clauses are known by number and not
/// stored.
pub fn ordered_families(
    alloc: Global,
    a: &Admitted,
    vars: Variables,
) -> Result<OrderedFormula, NoMemory>
    requires kinds { vars.kinds ≡ kind_count a.now }
    requires small { IsSmall vars }
    ensures exact { IfOk result (λ f. IsSharedFormula a.now vars (whole f)) }
    ensures few { IfOk result (λ f. length (whole f).clauses ≤ 8000000) }
{
    // law: the literals of a clause that forbids a cycle ascend
    cycle_clauses_ascend();
    let mut clauses = Seq::new(alloc);
    push_families(&mut clauses, alloc, a.expanded(), vars)?;
    let order = order_of(vars);
    let stored = Formula {
        vars: vars.count(),
        clauses,
    };
    Ok(OrderedFormula { order, stored })
}

/// The clauses that a run with two producers of one parameter would satisfy.
pub fn safety_formula(alloc: Global, a: &Admitted) -> Result<Formula, NoMemory>
    ensures exact { IfOk result (IsSafetyFormula a.now) }
    ensures few { IfOk result (λ f. length f.clauses ≤ 8000000) }
{
    formula_of(alloc, Property::Safety, a)
}

/// The clauses that a run would satisfy if it were quiet at a key and left a public parameter
/// unbound there.
pub fn liveness_formula(alloc: Global, a: &Admitted) -> Result<Formula, NoMemory>
    ensures exact { IfOk result (IsLivenessFormula a.now) }
    ensures few { IfOk result (λ f. length f.clauses ≤ 8000000) }
{
    formula_of(alloc, Property::Liveness, a)
}

/// The clauses of the formula, over its variables.
fn clauses_with(
    alloc: Global,
    property: Property,
    x: &Expanded,
    vars: Variables,
) -> Result<ClauseList, NoMemory>
    requires exact { vars ≡ variables_of property x.now }
    requires small { IsSmall vars }
    ensures { IfOk result (λ clauses. AppendsClauses [] clauses (clauses_of property x.now)) }
{
    let mut clauses = Seq::new(alloc);
    push_order(&mut clauses, alloc, vars)?;
    push_after_order(&mut clauses, alloc, property, x, vars)?;
    Ok(clauses)
}

/// Those that come after the order clauses.
fn clauses_after_order(
    alloc: Global,
    property: Property,
    x: &Expanded,
    vars: Variables,
) -> Result<ClauseList, NoMemory>
    requires exact { vars ≡ variables_of property x.now }
    requires small { IsSmall vars }
    ensures { IfOk result (λ clauses. AppendsClauses [] clauses (clauses_after_order property x.now)) }
{
    let mut clauses = Seq::new(alloc);
    push_after_order(&mut clauses, alloc, property, x, vars)?;
    Ok(clauses)
}

/// Appends the clauses of the formula that come after the order clauses.
fn push_after_order(
    clauses: &mut ClauseList,
    alloc: Global,
    property: Property,
    x: &Expanded,
    vars: Variables,
) -> Result<(), NoMemory>
    requires exact { vars ≡ variables_of property x.now }
    requires small { IsSmall vars }
    ensures { OnOk result
        (AppendsClauses clauses.old clauses.new (clauses_after_order property x.now)) }
{
    push_families(clauses, alloc, x, vars)?;
    push_own(clauses, alloc, property, x)
}

/// Appends the clauses that only the formula of the property has.
fn push_own(
    clauses: &mut ClauseList,
    alloc: Global,
    property: Property,
    x: &Expanded,
) -> Result<(), NoMemory>
    ensures { OnOk result (AppendsClauses clauses.old clauses.new (own_clauses property x.now)) }
{
    match property {
        Property::Safety => push_rivals(clauses, alloc, x),
        Property::Liveness => push_rest(clauses, alloc, x),
    }
}
