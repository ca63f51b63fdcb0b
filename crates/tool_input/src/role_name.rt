ghost use Rattle.std.specs.Prelude.{◌≡◌};
ghost use Rattle.tool_input.specs.RoleName.{unknown_role};

use super::rejection::{Code, Rejection};

/// The rejection of a name that no role has.
pub fn unknown_role() -> Rejection
    ensures { result ≡ unknown_role }
{
    Rejection::bare(Code::F(5))
}
