ghost use Rattle.std.specs.Prelude.{◌≡◌, ◌↔◌, ◌+◌, ◌<◌, length, IfOk, IsTrue, MatchBool};
ghost use Rattle.std.specs.Prelude.{slice_get, Some};
ghost use Rattle.std.specs.List.{Contains};
ghost use Rattle.bspl_types.specs.declared.event.Event.{Event};
ghost use Rattle.bspl_types.specs.declared.event.Event.TheVariants.{Receive};
ghost use Rattle.bspl_types.specs.History.{instance_of};
ghost use Rattle.run_index.specs.FirstEmission.{IsFirstEmission};
ghost use Rattle.run_index.specs.FirstOfKey.{IsFirstOfKey, IsRepeatOfKey};
ghost use Rattle.run_index.specs.inner.Chain.{IsFirstFrom, IsNextUnder};
ghost use Rattle.run_index.specs.inner.Enactment.{HasEventsUnder};

use bspl_types::{Event, Instance, Key, Run};
use key_table::{SortedEvent, SortedKey, tied_events_are_one, tied_keys_are_one};
use list_base::{NoMemory, NumberList, Seq};
use std::alloc::Global;
use std::collections::BTreeMap;
use std::marker::Model;

/// A run whose events are found by their keys, and by themselves. Contracts see the run.
///
/// The events of one key are a chain through the run: a map has the position of its first one, and
/// a list the position after each. A second map has the first position of each event.
#[derive(Drop)]
pub struct RunIndex<'a> {
    run: &'a [Event],
    firsts: BTreeMap<SortedKey, usize>,
    acts: BTreeMap<SortedEvent, usize>,
    /// Backwards: the last event's comes first.
    following: Seq<usize>,
}

impl<'a> Model for RunIndex<'a> {
    ghost use Rattle.std.specs.Prelude.{List};
    ghost use Rattle.bspl_types.specs.declared.event.Event.{Event as SpecEvent};
    ghost use Rattle.run_index.specs.inner.Chain.{HasFirstsFrom, IsIndexFrom};

    ghost Value = { List SpecEvent };

    ghost view = { λ i. i.run.now };

    ghost invariant = { λ i.
        IsIndexFrom i.run.now 0 i.firsts i.following × HasFirstsFrom i.run.now 0 i.acts };
}

impl<'a> RunIndex<'a> {
    /// The index of the run.
    pub fn of(alloc: Global, run: &'a [Event]) -> Result<RunIndex<'a>, NoMemory>
        ensures { IfOk result (λ index. index ≡ run.now) }
    {
        tied_keys_are_one(); // law: keys that are equal by their order are one key
        tied_events_are_one(); // law: so are events
        let mut firsts = BTreeMap::new(alloc);
        let mut acts = BTreeMap::new(alloc);
        let mut following = Seq::new(alloc);
        let mut position = run.len();
        while position > 0 {
            position -= 1;
            let key = SortedKey::of(&run[position].instance().key);
            let next = firsts.insert(key, position)?;
            following.push(next.unwrap_or(run.len()))?;
            acts.insert(SortedEvent::of(&run[position]), position)?;
        }
        Ok(RunIndex {
            run,
            firsts,
            acts,
            following,
        })
    }

    /// The run.
    pub fn events(&self) -> &'a [Event]
        ensures { result.now ≡ self.now }
    {
        self.run
    }

    /// Whether no earlier event has the key of the event at the position, from 0.
    pub fn is_first(&self, position: usize) -> bool
        requires { position < length self.now }
        ensures { MatchBool result (IsFirstOfKey self.now position)
            (IsRepeatOfKey self.now position) }
    {
        let run = self.events();
        self.first(&run[position].instance().key) == position
    }

    /// The position of the first emission of the instance, from 0, or the length of the run.
    pub fn first_emission(&self, instance: &Instance) -> usize
        ensures { IsFirstEmission self.now instance.now result }
    {
        self.first_of(&Event::Emit(*instance))
    }

    /// Whether the instance is received in the run.
    #[tactic(auto, using(crate::proofs::EmissionLemmas::in_run, crate::proofs::EmissionLemmas::has_position))]
    pub(crate) fn is_received(&self, instance: &Instance) -> bool
        ensures { IsTrue result ↔ Contains self.now (Receive instance.now) }
    {
        let run = self.events();
        self.first_of(&Event::Receive(*instance)) < run.len()
    }

    /// The first position of the event, from 0, or the length of the run.
    fn first_of(&self, event: &Event) -> usize
        ensures { IsFirstFrom self.now event.now 0 result }
    {
        match self.acts.get(&SortedEvent::of(event)) {
            Some(position) => *position,
            None => self.run.len(),
        }
    }

    /// The position of the first event under the key, or the length of the run.
    pub(crate) fn first(&self, key: &Key) -> usize
        ensures { IsNextUnder self.now key.now 0 result }
    {
        match self.firsts.get(&SortedKey::of(key)) {
            Some(position) => *position,
            None => self.run.len(),
        }
    }

    /// The position of the next event under the key of the one at the position, or the length.
    pub(crate) fn next(&self, position: usize) -> usize
        requires { position < length self.now }
        ensures { (event : Event) → slice_get self.now position ≡ Some event →
            IsNextUnder self.now (instance_of event).key (position + 1) result }
    {
        *self.following.at(self.run.len() - 1 - position)
    }

    /// The events under the key.
    pub(crate) fn enactment(&self, alloc: Global, key: &Key) -> Result<Run, NoMemory>
        ensures { IfOk result (HasEventsUnder self.now key.now) }
    {
        let run = self.events();
        let mut events = Seq::new(alloc);
        let mut position = self.first(key);
        while position < run.len() {
            events.push(run[position])?;
            position = self.next(position);
        }
        Ok(events)
    }
}
