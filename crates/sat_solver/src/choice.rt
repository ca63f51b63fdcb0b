ghost use Rattle.std.specs.Prelude.{◌↔◌, IsTrue, IfSome, IfNone};
ghost use Rattle.sat_solver.specs.inner.Choice.{IsFree, AllSet, AreSetUpTo};

use clause_core::Lit;
use order_propagator::OrderTrail;

/// The literal to decide: the one that is proposed, if it is unset, and else the negation of the
/// lowest unset variable. The variables up to `lowest` are set until the next backjump.
pub fn choose(trail: &OrderTrail, proposed: Option<Lit>, lowest: &mut u32) -> Option<Lit>
    requires passed { AreSetUpTo trail.now lowest.old }
    ensures free { IfSome result (IsFree trail.now) }
    ensures all_set { IfNone result (AllSet trail.now) }
    ensures passed { AreSetUpTo trail.now lowest.new }
{
    if let Some(lit) = proposed {
        if is_free(trail, lit) {
            return Some(lit);
        }
    }
    lowest_free(trail, lowest)
}

/// Whether the literal's variable exists and has no value.
fn is_free(trail: &OrderTrail, lit: Lit) -> bool
    ensures { IsTrue result ↔ IsFree trail.now lit }
{
    0 < lit.var && lit.var <= trail.vars() && trail.value(lit.var).is_none()
}

/// The negation of the lowest variable that has no value.
fn lowest_free(trail: &OrderTrail, lowest: &mut u32) -> Option<Lit>
    requires passed { AreSetUpTo trail.now lowest.old }
    ensures free { IfSome result (IsFree trail.now) }
    ensures all_set { IfNone result (AllSet trail.now) }
    ensures passed { AreSetUpTo trail.now lowest.new }
{
    let vars = trail.vars();
    while *lowest < vars {
        let var = *lowest + 1;
        if trail.value(var).is_none() {
            return Some(Lit {
                var,
                positive: false,
            });
        }
        *lowest = var;
    }
    None
}
