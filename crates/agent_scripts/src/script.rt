ghost use Rattle.std.specs.Prelude.{◌≡◌, ◌-◌, ◌<◌, ◌≤◌, length, slice_get, Some, MatchOption};
ghost use Rattle.std.specs.List.{Contains};
ghost use Rattle.agent_scripts.specs.Script.{is_declined, message_values};

use super::rules::{Declined, ValueRule};
use super::values::values_of;
use bspl_types::{Admitted, Key, NumberList, Values};
use key_table::KeyTable;
use list_base::Seq;
use std::marker::Model;

/// What the agents of all roles do. Contracts see its parts as lists.
#[derive(Drop)]
pub struct Script {
    keys: KeyTable,
    orders: Seq<NumberList>,
    declines: Seq<Declined>,
    rules: Seq<ValueRule>,
}

impl Model for Script {
    ghost use Rattle.agent_scripts.specs.Script.{Script as SpecScript};
    ghost use Rattle.agent_scripts.specs.Fitting.{IsFittingScript};

    ghost Value = { SpecScript };

    ghost view = { λ a. record {
      keys = a.keys;
      orders = a.orders;
      declines = a.declines;
      rules = a.rules;
    } };

    ghost invariant = { λ a. IsFittingScript a.keys a.rules };
}

impl Script {
    ghost use Rattle.agent_scripts.specs.Fitting.{IsFittingScript};

    /// The script with these parts.
    pub fn of(
        keys: KeyTable,
        orders: Seq<NumberList>,
        declines: Seq<Declined>,
        rules: Seq<ValueRule>,
    ) -> Script
        requires { IsFittingScript keys rules }
        ensures { result ≡ record {
          keys = keys;
          orders = orders;
          declines = declines;
          rules = rules;
        } }
    {
        Script {
            keys,
            orders,
            declines,
            rules,
        }
    }

    /// How many workload keys there are.
    pub fn count(&self) -> u64
        ensures count { result ≡ length self.now.keys }
        ensures fits { IsFittingScript self.now.keys self.now.rules }
    {
        self.keys.len() as u64
    }

    /// The workload key of that number, from 1.
    pub fn key(&self, n: u64) -> Key
        requires some { 0 < n }
        requires within { n ≤ length self.now.keys }
        ensures { slice_get self.now.keys (n - 1) ≡ Some result }
    {
        self.keys.at(n as usize - 1)
    }

    /// The number of the workload key, from 1, or nothing if it is none.
    pub fn number(&self, key: &Key) -> Option<u64>
        ensures { MatchOption result (¬ Contains self.now.keys key.now)
            (λ n. (0 < n) × (slice_get self.now.keys (n - 1) ≡ Some key.now)) }
    {
        match self.keys.index_of(key) {
            Some(index) => Some(index as u64 + 1),
            None => None,
        }
    }

    /// All messages that the role sends, in the order in which it tries them.
    pub fn order(&self, role: u32) -> &NumberList
        requires { role < length self.now.orders }
        ensures { slice_get self.now.orders role ≡ Some result.now }
    {
        self.orders.at(role as usize)
    }

    /// Whether the message is not to be emitted at the workload number.
    pub fn declined(&self, message: u32, n: u64) -> bool
        ensures { result ≡ is_declined self.now message n }
    {
        self.declines
            .as_slice()
            .iter()
            .any(|d| d.message == message && n % d.every == 0)
    }

    /// The values of the message's `out` parameters that are no keys, in its order.
    pub fn values(&self, a: &Admitted, message: u32, n: u64) -> Values
        requires known { message < length a.now.messages }
        requires within { n ≤ length self.now.keys }
        ensures { result ≡ message_values a.now self.now message n }
    {
        values_of(a.expanded(), self.rules.as_slice(), message, n)
    }
}
