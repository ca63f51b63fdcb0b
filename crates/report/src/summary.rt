ghost use Rattle.bspl_types.specs.declared.event.Event.{Event};
ghost use Rattle.std.specs.Prelude.{◌≡◌, ◌++◌, List, IfOk, OnOk};
ghost use Rattle.agent_scripts.specs.Refusal.{IsScriptFor};
ghost use Rattle.stamped_history.specs.Explained.{AreLocal};
ghost use Rattle.world_run.specs.World.{AreDesksOf, HasHistories, histories_of};
ghost use Rattle.report.specs.Summary.{IsSummaryText, count_line, generated_text};

use super::fields::push_count;
use super::verdict_lines::{push_liveness_line, push_safety_line};
use super::world_known::count_known;
use super::world_totals::count_all;
use agent_scripts::Script;
use bspl_types::Admitted;
use list_base::{Bytes, NoMemory};
use std::alloc::Global;
use verdict::Verdicts;
use world_run::World;

/// What is said of a protocol that was made from the number: how many messages it has, and the
/// verdicts without their evidence.
pub fn generated_text(alloc: Global, n: u32, a: &Admitted, v: &Verdicts) -> Result<Bytes, NoMemory>
    ensures { IfOk result (λ text. text ≡ generated_text n a.now v.now) }
{
    let x = a.expanded();
    let mut text = Bytes::new(alloc);
    push_line(&mut text, b"generate", n as usize)?;
    push_line(&mut text, b"messages", x.messages.len())?;
    push_safety_line(&mut text, x, &v.safety)?;
    push_liveness_line(&mut text, x, &v.liveness)?;
    Ok(text)
}

/// The text that sums up a world: how many workload keys, emissions and receptions there are, and
/// how many parameters some role knows, over all keys.
pub fn summary_text(
    alloc: Global,
    a: &Admitted,
    script: &Script,
    world: &World,
) -> Result<Bytes, NoMemory>
    requires desks { AreDesksOf a.now world.now.desks }
    ensures { IfOk result (λ text. (run : List Event) →
        AreLocal a.now (histories_of world.now.desks) →
        HasHistories a.now world.now.desks run → IsSummaryText a.now script.now run text) }
{
    let x = a.expanded();
    let total = count_all(x, world);
    let mut text = Bytes::new(alloc);
    push_line(&mut text, b"keys", script.count() as usize)?;
    push_line(&mut text, b"sent", total.sent)?;
    push_line(&mut text, b"received", total.received)?;
    push_line(&mut text, b"bound", count_known(x, script, world))?;
    Ok(text)
}

/// Appends a line of the word and the number.
fn push_line(text: &mut Bytes, word: &[u8], count: usize) -> Result<(), NoMemory>
    ensures { OnOk result (text.new ≡ text.old ++ count_line word.now count) }
{
    text.append(word)?;
    push_count(text, count)?;
    text.push(b'\n')
}
