ghost use Rattle.std.specs.Prelude.{◌≡◌, ◌^◌, ◌<◌, length, IfOk, IfSome};
ghost use Rattle.order_axioms.specs.Formula.{whole};
ghost use Rattle.sat_trail.specs.Trail.{IsStart, IsTrail};

use clause_core::Formula;
use list_base::NoMemory;
use order_axioms::{FormulaClauses, Order, OrderedFormula};
use order_propagator::OrderTrail;
use std::alloc::Global;
use std::marker::Model;

/// A formula that is to be decided, with or without an order.
#[derive(Drop)]
pub struct GivenFormula<'f> {
    source: FormulaSource<'f>,
}

/// Where the clauses of a formula are.
#[derive(Drop)]
pub enum FormulaSource<'f> {
    /// All of them are stored.
    Plain(&'f Formula),
    /// The first of them are those of an order, and are not stored.
    Ordered(&'f OrderedFormula),
}

impl<'f> Model for GivenFormula<'f> {
    ghost use Rattle.clause_core.specs.declared.formula.Formula.{Formula as SpecFormula};
    ghost use Rattle.sat_solver.specs.inner.Given.{source_formula};

    ghost Value = { SpecFormula };

    ghost view = { λ f. source_formula f.source };
}

impl<'f> GivenFormula<'f> {
    /// The formula without an order.
    pub fn plain(f: &'f Formula) -> GivenFormula<'f>
        ensures { result ≡ f.now }
    {
        GivenFormula {
            source: FormulaSource::Plain(f),
        }
    }

    /// The formula with its order.
    pub fn ordered(f: &'f OrderedFormula) -> GivenFormula<'f>
        ensures { result ≡ whole f.now }
    {
        GivenFormula {
            source: FormulaSource::Ordered(f),
        }
    }

    /// The number of its variables.
    pub fn vars(&self) -> u32
        ensures { result ≡ self.now.vars }
    {
        match &self.source {
            FormulaSource::Plain(f) => f.vars,
            FormulaSource::Ordered(f) => f.stored.vars,
        }
    }

    /// The formula and its order, if it has one.
    pub fn with_order(&self) -> Option<&'f OrderedFormula>
        ensures { IfSome result (λ f. self.now ≡ whole f.now) }
    {
        match &self.source {
            FormulaSource::Plain(_) => None,
            FormulaSource::Ordered(f) => Some(f),
        }
    }

    /// A trail over its clauses, on which nothing is set.
    pub fn trail(&self, alloc: Global) -> Result<OrderTrail<'f>, NoMemory>
        requires { length self.now.clauses < 2 ^ 32 }
        ensures start { IfOk result (IsStart self.now) }
        ensures sound { IfOk result IsTrail }
    {
        match &self.source {
            FormulaSource::Plain(f) => OrderTrail::new(alloc, f, Order::none()),
            FormulaSource::Ordered(f) => OrderTrail::new(alloc, &f.stored, f.order),
        }
    }

    /// Its clauses, which are lent one by one.
    pub fn clauses(&self, alloc: Global) -> Result<FormulaClauses<'f>, NoMemory>
        ensures { IfOk result (λ clauses. clauses ≡ self.now.clauses) }
    {
        match &self.source {
            FormulaSource::Plain(f) => FormulaClauses::plain(alloc, f),
            FormulaSource::Ordered(f) => FormulaClauses::ordered(alloc, f),
        }
    }
}
