ghost use Rattle.std.specs.Prelude.{◌≡◌, ◌↔◌, IsTrue};
ghost use Rattle.reorder_net.specs.Losses.{IsLost, is_lost, copies_of};

use agent_scripts::Plan;

/// Whether the plan loses the message, a number from 0, at the workload number.
pub fn lost(plan: &Plan, message: u32, n: u64) -> bool
    ensures exact { IsTrue result ↔ IsLost plan.now message n }
    ensures test { result ≡ is_lost plan.now message n }
{
    let seed = plan.seed % 1000;
    let chance = (seed + 379 * (u64::from(message) + 1) + 617 * (n % 1000)) % 1000;
    chance < u64::from(plan.loss)
}

/// How many copies of the message are delivered.
pub fn copies(plan: &Plan, message: u32, n: u64) -> u32
    ensures { result ≡ copies_of plan.now message n }
{
    if lost(plan, message, n) {
        0
    } else {
        1 + plan.repeat
    }
}
