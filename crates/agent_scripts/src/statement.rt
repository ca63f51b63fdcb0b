use bspl_types::{Key, NumberList, Text32};

/// What is set by one number.
#[derive(Clone, Copy, Debug, PartialEq, Eq)]
pub enum Setting {
    /// How many workload keys there are.
    Keys,
    /// What the choice of lost messages begins with.
    Seed,
    /// How many of each thousand messages are lost.
    Loss,
    /// How many further copies of a message are delivered.
    Repeat,
}

/// How a value follows from the workload number.
#[derive(Clone, Copy, Debug)]
pub enum Rule {
    /// The first number times the workload number, and the second.
    Linear(u64, u64),
    /// The text at every number.
    Fixed(Text32),
}

/// What a line says. Roles, messages and parameters are indices in the protocol.
#[derive(Drop)]
pub enum Statement {
    /// A setting has that number.
    Set(Setting, u64),
    /// A workload key.
    Key(Key),
    /// The messages that the role tries first.
    Order(u32, NumberList),
    /// The message is never emitted, or not at the multiples of a number.
    Decline(u32, Option<u64>),
    /// The value of the message's parameter.
    Bind(u32, u32, Rule),
}

/// A statement and the number of its line, from 1.
#[derive(Drop)]
pub struct Stated {
    pub line: u64,
    pub statement: Statement,
}
