ghost use Rattle.std.specs.Prelude.{◌≡◌, ◌<◌, ◌≤◌, length, map, Some, IfOk, IfSome, OnOk};
ghost use Rattle.message_fates.specs.Fates.{AreFates, HasFate};
ghost use Rattle.message_fates.specs.inner.Known.{AreKnown, IsKnownFate};

use super::fate::Fate;
use super::known::find_known;
use bspl_types::{Admitted, MESSAGE_LIMIT};
use enactability::{Enact, EnactSearch};
use list_base::{NoMemory, Seq};
use std::alloc::Global;

/// What becomes of each message. A message is searched for, with at most `budget` conflicts, only if
/// no play sends it and it is reached.
pub fn message_fates(alloc: Global, protocol: &Admitted, budget: u32) -> Result<Seq<Fate>, NoMemory>
    requires some { 1 ≤ budget }
    requires few { budget ≤ 2147483647 }
    ensures { IfOk result (AreFates protocol.now budget) }
{
    let mut known = [None; MESSAGE_LIMIT];
    let count = protocol.expanded().messages.len();
    fates_by(alloc, protocol, &mut known[..count], budget)
}

/// What becomes of each message, with a place for the fates that are known without a search.
fn fates_by(
    alloc: Global,
    protocol: &Admitted,
    known: &mut [Option<Fate>],
    budget: u32,
) -> Result<Seq<Fate>, NoMemory>
    requires one_each { length known.old ≡ length protocol.now.messages }
    requires some { 1 ≤ budget }
    requires few { budget ≤ 2147483647 }
    ensures { IfOk result (AreFates protocol.now budget) }
{
    find_known(alloc, protocol, known)?;
    match all_known(alloc, known)? {
        Some(fates) => Ok(fates),
        None => searched_fates(alloc, protocol, known, budget),
    }
}

/// The fates, if all are known.
fn all_known(alloc: Global, known: &[Option<Fate>]) -> Result<Option<Seq<Fate>>, NoMemory>
    ensures { IfOk result (λ all. IfSome all (λ fates. known.now ≡ map Some fates)) }
{
    let mut fates = Seq::with_room(alloc, known.len())?;
    for fate in known {
        let Some(fate) = fate else {
            return Ok(None);
        };
        fates.push(*fate)?;
    }
    Ok(Some(fates))
}

/// What becomes of each message, by searches for those whose fate is not known.
fn searched_fates(
    alloc: Global,
    protocol: &Admitted,
    known: &[Option<Fate>],
    budget: u32,
) -> Result<Seq<Fate>, NoMemory>
    requires known { AreKnown protocol.now known.now }
    requires one_each { length known.now ≡ length protocol.now.messages }
    requires some { 1 ≤ budget }
    requires few { budget ≤ 2147483647 }
    ensures { IfOk result (AreFates protocol.now budget) }
{
    let mut search = EnactSearch::new(alloc, protocol)?;
    let mut fates = [Fate::Undecided; MESSAGE_LIMIT];
    find_fates(alloc, &mut search, known, &mut fates[..known.len()], budget)?;
    Seq::from_slice(alloc, &fates[..known.len()])
}

/// Puts the fate of each message in its place, and searches for what is not known. The last message
/// comes first: a run that sends it is likely to send many others, and the search looks among the
/// runs that it has found.
#[tactic(auto, using(crate::proofs::FateLemmas::found_more, crate::proofs::FateLemmas::known_at, crate::proofs::FateLemmas::all_found))]
fn find_fates(
    alloc: Global,
    search: &mut EnactSearch<'_>,
    known: &[Option<Fate>],
    fates: &mut [Fate],
    budget: u32,
) -> Result<(), NoMemory>
    requires known { AreKnown search.old known.now }
    requires one_each { length known.now ≡ length search.old.messages }
    requires all { length fates.old ≡ length known.now }
    requires some { 1 ≤ budget }
    requires few { budget ≤ 2147483647 }
    ensures { OnOk result (AreFates search.old budget fates.new) }
{
    let mut message = fates.len();
    'from_the_last: while message > 0 {
        message -= 1;
        let fate = known[message];
        fates[message] = fate_of(alloc, search, fate, message as u32, budget)?;
    }
    Ok(())
}

/// What becomes of the message: its fate if it is known, and else what a search finds.
#[tactic(auto, using(crate::proofs::FateLemmas::known_is_right))]
fn fate_of(
    alloc: Global,
    search: &mut EnactSearch<'_>,
    known: Option<Fate>,
    message: u32,
    budget: u32,
) -> Result<Fate, NoMemory>
    requires known { IfSome known (IsKnownFate search.old message) }
    requires exists { message < length search.old.messages }
    requires some { 1 ≤ budget }
    requires few { budget ≤ 2147483647 }
    ensures right { IfOk result (λ fate. HasFate search.old budget (message, fate)) }
    ensures same { search.new ≡ search.old }
{
    if let Some(fate) = known {
        return Ok(fate);
    }
    match search.enactable(alloc, message, budget)? {
        Enact::Enacted(_) => Ok(Fate::Sent),
        Enact::Dead(_) => Ok(Fate::Dead),
        Enact::Undecided(_) => Ok(Fate::Undecided),
    }
}
