ghost use Rattle.std.specs.Prelude.{◌≡◌, ◌↔◌, ◌<◌, ◌≤◌, IsTrue, OnOk, length};
ghost use Rattle.std.specs.BTreeSet.{IsEmpty};
ghost use Rattle.std.specs.List.{zip};
ghost use Rattle.bspl_types.specs.Adornment.{valued};
ghost use Rattle.bspl_types.specs.History.{instance_of};
ghost use Rattle.bspl_types.specs.Instance.{Fits};
ghost use Rattle.bspl_types.specs.Limits.{key_limit};
ghost use Rattle.run_index.specs.inner.Facts.{AddsFacts, HasFact, IsFactOf, IsFactOfPairs};
ghost use Rattle.run_index.specs.inner.Facts.{message_fact, param_fact, value_fact};

use bspl_types::{Carried, Event, Expanded, Key, Value};
use key_table::{SortedKey, tied_keys_are_one};
use list_base::NoMemory;
use std::alloc::Global;
use std::collections::BTreeSet;
use std::marker::Model;

/// What the events under one key make known: which role knows which parameter with which values,
/// and which messages are emitted.
///
/// Each fact is a short list of values that the order of keys finds, however many there are.
/// Contracts see the set.
#[derive(Drop)]
pub(crate) struct Facts {
    facts: BTreeSet<SortedKey>,
}

impl Model for Facts {
    ghost use Rattle.std.specs.Prelude.{List};
    ghost use Rattle.std.specs.BTreeSet.{BTreeSet as SpecSet};
    ghost use Rattle.bspl_types.specs.declared.value.Value.{Value as SpecValue};

    ghost Value = { SpecSet (List SpecValue) };

    ghost view = { λ f. f.facts };
}

impl Facts {
    /// Nothing is known.
    pub(crate) fn new(alloc: Global) -> Facts
        ensures { IsEmpty result }
    {
        Facts {
            facts: BTreeSet::new(alloc),
        }
    }

    /// Whether the role knows some value of the parameter.
    pub(crate) fn knows_param(&self, role: u32, param: u32) -> bool
        ensures { IsTrue result ↔ HasFact self.now (param_fact role param) }
    {
        self.has(&[Value::Number(role as u64), Value::Number(param as u64)])
    }

    /// Whether the role knows the parameter with the value.
    pub(crate) fn knows_value(&self, role: u32, param: u32, value: Value) -> bool
        ensures { IsTrue result ↔ HasFact self.now (value_fact role param value) }
    {
        self.has(&[
            Value::Number(role as u64),
            Value::Number(param as u64),
            value,
        ])
    }

    /// Whether some instance of the message is emitted.
    pub(crate) fn is_emitted(&self, message: u32) -> bool
        ensures { IsTrue result ↔ HasFact self.now (message_fact message) }
    {
        self.has(&[Value::Number(message as u64)])
    }

    /// Adds what the event makes known.
    pub(crate) fn learn(&mut self, x: &Expanded, event: &Event) -> Result<(), NoMemory>
        requires { Fits x.now (instance_of event.now) }
        ensures { OnOk result (AddsFacts self.old self.new (IsFactOf x.now event.now)) }
    {
        let instance = event.instance();
        let carried = x.message_at(instance.message).carried.as_slice();
        self.learn_pairs(event.role(x), carried, instance.values.as_slice())?;
        match event {
            Event::Emit(instance) => self.add(&[Value::Number(instance.message as u64)]),
            Event::Receive(_) => Ok(()),
        }
    }

    /// Adds that the role knows the parameters with a value, each with its own.
    fn learn_pairs(
        &mut self,
        role: u32,
        carried: &[Carried],
        values: &[Value],
    ) -> Result<(), NoMemory>
        ensures { OnOk result (AddsFacts self.old self.new
            (IsFactOfPairs role (zip (valued carried.now) values.now))) }
    {
        let [c, carried @ ..] = carried else {
            return Ok(());
        };
        if !c.adornment.has_value() {
            return self.learn_pairs(role, carried, values);
        }
        let [value, values @ ..] = values else {
            return Ok(());
        };
        let param = c.param;
        self.add(&[Value::Number(role as u64), Value::Number(param as u64)])?;
        self.add(&[
            Value::Number(role as u64),
            Value::Number(param as u64),
            *value,
        ])?;
        self.learn_pairs(role, carried, values)
    }

    /// Adds one fact.
    fn add(&mut self, fact: &[Value]) -> Result<(), NoMemory>
        requires few { length fact.now ≤ key_limit }
        requires some { 0 < length fact.now }
        ensures { OnOk result (AddsFacts self.old self.new (λ other. fact.now ≡ other)) }
    {
        tied_keys_are_one(); // law: keys that are equal by their order are one key
        self.facts.insert(SortedKey::of(&Key::of(fact)))?;
        Ok(())
    }

    /// Whether the fact is among them.
    fn has(&self, fact: &[Value]) -> bool
        requires few { length fact.now ≤ key_limit }
        requires some { 0 < length fact.now }
        ensures { IsTrue result ↔ HasFact self.now fact.now }
    {
        self.facts.contains(&SortedKey::of(&Key::of(fact)))
    }
}
