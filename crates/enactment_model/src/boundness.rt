ghost use Rattle.std.specs.Prelude.{◌≡◌, ◌↔◌, ◌<◌, IfSome, IsNone, IsTrue, length};
ghost use Rattle.bspl_types.specs.History.{IsRun};
ghost use Rattle.enactment_model.specs.FirstUnbound.{BindsPublic, IsFirstUnbound};
ghost use Rattle.enactment_model.specs.Liveness.{Bound, HasPublicValue};

use bspl_types::{Event, Expanded, Key};
use role_knowledge::knows;

/// The first public parameter adorned `in` or `out` of which no role knows a value under the key,
/// by its index in the protocol's parameters.
///
/// It takes no memory.
pub fn unbound(x: &Expanded, run: &[Event], key: &Key) -> Option<u32>
    requires fits { IsRun x.now run.now }
    requires key { length key.now ≡ length x.now.keys }
    ensures none { IsNone result ↔ BindsPublic x.now run.now key.now }
    ensures first { IfSome result (IsFirstUnbound x.now run.now key.now) }
{
    for param in 0..x.public {
        if has_public_value(x, param) && !is_bound(x, run, key, param) {
            return Some(param);
        }
    }
    None
}

/// Whether the parameter is public, and adorned `in` or `out`.
fn has_public_value(x: &Expanded, param: u32) -> bool
    requires { param < x.now.public }
    ensures { IsTrue result ↔ HasPublicValue x.now param }
{
    x.params.at(param as usize).is_public_value()
}

/// Whether some role knows a value of the parameter under the key.
pub fn is_bound(x: &Expanded, run: &[Event], key: &Key, param: u32) -> bool
    requires { IsRun x.now run.now }
    ensures { IsTrue result ↔ Bound x.now run.now key.now param }
{
    for role in 0..x.roles.len() as u32 {
        if knows(x, run, role, key, param).is_some() {
            return true;
        }
    }
    false
}
