ghost use Rattle.std.specs.Prelude.{◌<◌, length, IfOk};
ghost use Rattle.std.specs.List.{All};
ghost use Rattle.agent_scripts.specs.StatedScript.{IsGivenPlan, IsGivenScript};
ghost use Rattle.agent_scripts.specs.ScriptText.{HasValueInRange, statements_of};

use super::keys::keys_of;
use super::orders::orders_of;
use super::plan::plan_of;
use super::rules::{declines_of, rules_of};
use super::statements::StatementList;
use agent_scripts::{Agents, Script};
use bspl_types::{Expanded, NoMemory};
use std::alloc::Global;

/// The script and the plan that the statements give.
pub(crate) fn agents_of(
    alloc: Global,
    x: &Expanded,
    statements: StatementList,
) -> Result<Agents, NoMemory>
    requires some_key { 0 < length x.now.keys }
    requires in_range { All (HasValueInRange x.now statements) statements }
    ensures script { IfOk result (λ agents.
        IsGivenScript x.now (statements_of statements) agents.script) }
    ensures plan { IfOk result (λ agents. IsGivenPlan (statements_of statements) agents.plan) }
{
    let stated = statements.as_slice();
    let plan = plan_of(stated);
    let orders = orders_of(alloc, x, stated)?;
    let declines = declines_of(alloc, stated)?;
    let rules = rules_of(alloc, stated)?;
    let keys = keys_of(alloc, x.keys.len(), statements)?;
    let script = Script::of(keys, orders, declines, rules);
    Ok(Agents { script, plan })
}
