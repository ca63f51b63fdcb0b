ghost use Rattle.std.specs.Prelude.{◌≢◌, Err, IfErr, IfOk};
ghost use Rattle.agent_scripts.specs.declared.refusal.ScriptRefusal.TheVariants.{NoMemory as OutOfMemory};
ghost use Rattle.agent_scripts.specs.Refusal.{IsRefusedScript, IsScriptText};

use super::agents::agents_of;
use super::keys::key_count;
use super::ranges::first_out_of_range;
use super::reader::read_lines;
use agent_scripts::{Agents, ScriptRefusal};
use bspl_types::Admitted;
use std::alloc::Global;

/// Reads what the agents of the protocol's roles do. A refusal names the first bad line.
pub fn read_scripts(alloc: Global, text: &[u8], a: &Admitted) -> Result<Agents, ScriptRefusal>
    ensures ok { IfOk result (λ agents.
        IsScriptText a.now text.now agents.script agents.plan) }
    ensures refused { result ≢ Err OutOfMemory → IfErr result (IsRefusedScript a.now text.now) }
{
    let x = a.expanded();
    let reading = read_lines(alloc, x, text)?;
    let count = key_count(&reading.statements);
    if let Some(line) = first_out_of_range(reading.statements.as_slice(), count) {
        return Err(ScriptRefusal::Form { line });
    }
    if let Some(refusal) = reading.refusal {
        return Err(refusal);
    }
    let agents = agents_of(alloc, x, reading.statements)?;
    Ok(agents)
}
