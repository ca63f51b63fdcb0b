ghost use Rattle.std.specs.Prelude.{◌≡◌, ◌<◌, ◌≤◌, length, IfOk};
ghost use Rattle.dimacs.specs.Dimacs.{clause_limit};
ghost use Rattle.formula_text.specs.FormulaText.{IsEnactText, IsFormulaText, text_of};

use super::legend::push_legend;
use super::lines::push_formula;
use bspl_types::{Admitted, Property};
use clause_core::Formula;
use clause_encoding::formula_of;
use enactability::enact_formula;
use list_base::{Bytes, NoMemory};
use std::alloc::Global;

/// The text of the protocol's formula of the property, after what its variables mean.
pub fn formula_text(alloc: Global, property: Property, a: &Admitted) -> Result<Bytes, NoMemory>
    ensures { IfOk result (IsFormulaText property a.now) }
{
    let formula = formula_of(alloc, property, a)?;
    text_of(alloc, property, a, &formula)
}

/// The text of the protocol's formula in which the message is sent. Some of the variables that it
/// names are those of safety, and no clause has them.
pub fn enact_formula_text(alloc: Global, a: &Admitted, message: u32) -> Result<Bytes, NoMemory>
    requires { message < length a.now.messages }
    ensures { IfOk result (IsEnactText a.now message) }
{
    let formula = enact_formula(alloc, a, message)?;
    text_of(alloc, Property::Safety, a, &formula)
}

/// The text of a formula over the variables of the property.
fn text_of(
    alloc: Global,
    property: Property,
    a: &Admitted,
    formula: &Formula,
) -> Result<Bytes, NoMemory>
    requires { length formula.now.clauses ≤ clause_limit }
    ensures { IfOk result (λ text. text ≡ text_of property a.now formula.now) }
{
    let mut text = Bytes::new(alloc);
    push_legend(&mut text, alloc, property, a)?;
    push_formula(&mut text, formula)?;
    Ok(text)
}
