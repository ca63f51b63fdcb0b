ghost use Rattle.std.specs.Prelude.{◌≡◌, ◌++◌, List, OnOk};
ghost use Rattle.bspl_types.specs.declared.event.Event.{Event};
ghost use Rattle.html.specs.Fragment.{as_html};
ghost use Rattle.page_sections.specs.WorldSection.{AppendsWorld, unplayed_section};
ghost use Rattle.report.specs.WorldRows.{IsRunOfWorld};
ghost use Rattle.world_run.specs.World.{AreDesksOf};

use super::wording::{NOT_PLAYED, WORLD};
use super::world_counts::push_counts;
use super::world_values::push_values;
use agent_scripts::Script;
use bspl_types::Expanded;
use html::{Fragment, fill, push_fragments};
use list_base::{Bytes, NoMemory};
use report::message_counts;
use std::alloc::Global;
use world_run::World;

/// Appends the section of a world that the agents of the script have played: how often each message
/// was sent and received, and under each workload key what some role knows.
pub fn push_world(
    alloc: Global,
    text: &mut Bytes,
    x: &Expanded,
    script: &Script,
    world: &World,
) -> Result<(), NoMemory>
    requires { AreDesksOf x.now world.now.desks }
    ensures { OnOk result ((run : List Event) → IsRunOfWorld x.now world.now.desks run →
        AppendsWorld x.now script.now run text.old text.new) }
{
    let counts = message_counts(x, world);
    fill(text, WORLD, &[Fragment::Number(script.count())])?;
    push_counts(text, x, &counts)?;
    push_values(alloc, text, x, script, world)
}

/// Appends that no agents play, since the protocol is not found safe.
pub fn push_unplayed(text: &mut Bytes) -> Result<(), NoMemory>
    ensures { OnOk result (text.new ≡ text.old ++ as_html unplayed_section) }
{
    push_fragments(text, &[Fragment::Tag(NOT_PLAYED)])
}
