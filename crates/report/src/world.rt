ghost use Rattle.bspl_types.specs.declared.event.Event.{Event};
ghost use Rattle.std.specs.Prelude.{◌≡◌, ◌++◌, List, IfOk, OnOk};
ghost use Rattle.agent_scripts.specs.Refusal.{IsScriptFor};
ghost use Rattle.stamped_history.specs.Explained.{AreLocal};
ghost use Rattle.world_run.specs.World.{AreDesksOf, HasHistories, histories_of};
ghost use Rattle.report.specs.WorldText.{IsWorldText, world_line};

use super::fields::push_count;
use super::row_lines::RowLines;
use super::world_counts::message_counts;
use super::world_messages::push_messages;
use super::world_rows::push_rows;
use agent_scripts::Script;
use bspl_types::Admitted;
use list_base::{Bytes, NoMemory};
use std::alloc::Global;
use world_run::World;

/// The text of a world: how often each message was sent and received over all stores, and a row of
/// values for each workload key.
pub fn world_text(
    alloc: Global,
    a: &Admitted,
    script: &Script,
    world: &World,
) -> Result<Bytes, NoMemory>
    requires desks { AreDesksOf a.now world.now.desks }
    requires script { IsScriptFor a.now script.now }
    ensures { IfOk result (λ text. (run : List Event) →
        AreLocal a.now (histories_of world.now.desks) →
        HasHistories a.now world.now.desks run → IsWorldText a.now script.now run text) }
{
    let x = a.expanded();
    let counts = message_counts(x, world);
    let mut text = Bytes::new(alloc);
    push_world(&mut text, script)?;
    push_messages(&mut text, x, &counts)?;
    push_rows(alloc, &mut text, x, script, world, &RowLines { x })?;
    text.append(b"end\n")?;
    Ok(text)
}

/// Appends the first line.
fn push_world(text: &mut Bytes, script: &Script) -> Result<(), NoMemory>
    ensures { OnOk result (text.new ≡ text.old ++ world_line script.now) }
{
    text.append(b"world")?;
    push_count(text, script.count() as usize)?;
    text.push(b'\n')
}
