ghost use Rattle.std.specs.Prelude.{◌≡◌, IfOk};
ghost use Rattle.clause_encoding.specs.Formula.{liveness_variables, plain_variables};
ghost use Rattle.clause_encoding.specs.Formula.{safety_variables, variables_of};
ghost use Rattle.clause_encoding.specs.Variables.{IsSmall, kind_count};

use super::parameters::public_values;
use super::rivals::rivals_of;
use super::variables::Variables;
use super::wants::wants_of;
use bspl_types::{Admitted, Expanded, Property};
use list_base::NoMemory;
use std::alloc::Global;

/// The variables of the formula. Those of order come after the kinds and after what only the
/// formula of the property has.
pub fn variables_of(alloc: Global, property: Property, a: &Admitted) -> Result<Variables, NoMemory>
    ensures exact { IfOk result (λ vars. vars ≡ variables_of property a.now) }
    ensures small { IfOk result IsSmall }
{
    let x = a.expanded();
    let kinds = kind_count(x);
    let own = match property {
        Property::Safety => rivals_of(alloc, x)?.len(),
        Property::Liveness => public_values(alloc, x)?.len() + wants_of(alloc, x)?.len(),
    };
    Ok(Variables {
        kinds,
        order_base: kinds + own as u32,
    })
}

/// The variables of the safety formula.
pub fn safety_variables(alloc: Global, a: &Admitted) -> Result<Variables, NoMemory>
    ensures exact { IfOk result (λ vars. vars ≡ safety_variables a.now) }
    ensures small { IfOk result IsSmall }
{
    variables_of(alloc, Property::Safety, a)
}

/// The variables of the liveness formula.
pub fn liveness_variables(alloc: Global, a: &Admitted) -> Result<Variables, NoMemory>
    ensures exact { IfOk result (λ vars. vars ≡ liveness_variables a.now) }
    ensures small { IfOk result IsSmall }
{
    variables_of(alloc, Property::Liveness, a)
}

/// The variables of a formula that has none of its own between those of the kinds and those of
/// order.
pub fn plain_variables(x: &Expanded) -> Variables
    ensures exact { result ≡ plain_variables x.now }
    ensures small { IsSmall result }
{
    let kinds = kind_count(x);
    Variables {
        kinds,
        order_base: kinds,
    }
}

/// How many event kinds there are: the first variable that only one property's formula has comes
/// after them.
pub fn kind_count(x: &Expanded) -> u32
    ensures { result ≡ kind_count x.now }
{
    2 * x.messages.len() as u32
}
