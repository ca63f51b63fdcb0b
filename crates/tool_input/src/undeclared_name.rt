ghost use Rattle.std.specs.Prelude.{◌≡◌};
ghost use Rattle.tool_input.specs.UndeclaredName.{undeclared_parameter, undeclared_role};

use super::rejection::{Code, Field, Rejection};
use bspl_types::Name;

/// The rejection of a name that no role has, where a question names it.
pub fn undeclared_role(name: Name) -> Rejection
    ensures { result ≡ undeclared_role name }
{
    Rejection::with_one(Code::E(16), Field::Name(name))
}

/// The rejection of a name that no parameter has.
pub fn undeclared_parameter(name: Name) -> Rejection
    ensures { result ≡ undeclared_parameter name }
{
    Rejection::with_one(Code::E(17), Field::Name(name))
}
