ghost use Rattle.refutation_log.specs.RemovalOrder.{IsInOrder};

use clause_core::Lit;
use list_base::{NumberList, Seq};

/// The property that a log proves of a protocol, by refuting the formula of its violations.
#[derive(Clone, Copy, Debug, PartialEq, Eq)]
pub enum Kind {
    /// Safety: no legal run has two producers of one parameter under one key, and the roles agree.
    Safety,
    /// Liveness: where a legal run is quiet, each public parameter with a value is bound.
    Liveness,
}

/// The version of a log's text.
#[derive(Clone, Copy, Debug, PartialEq, Eq)]
pub enum Version {
    /// Nothing is removed.
    One,
    /// Clauses may be removed.
    Two,
}

/// The next clause of a chain, by its number, and the literal on which it is resolved.
#[derive(Clone, Copy, Debug, PartialEq, Eq)]
pub struct Link {
    pub pivot: Lit,
    pub clause: u32,
}

/// Links, in order.
pub type LinkList = Seq<Link>;

/// One step: the first clause, by its number, resolved with that of each link in turn.
#[derive(Drop)]
pub struct Chain {
    pub first: u32,
    pub links: LinkList,
}

/// Steps, in order.
pub type ChainList = Seq<Chain>;

/// The numbers of clauses that are live no more after the first `after` steps.
#[derive(Drop)]
pub struct Removal {
    pub after: u32,
    pub clauses: NumberList,
}

/// Removals, in order.
pub type RemovalList = Seq<Removal>;

/// A step of a log, or the numbers of the clauses that a removal names.
#[derive(Drop)]
pub enum Entry {
    /// A step.
    Step(Chain),
    /// The numbers, in order.
    Drop(NumberList),
}

/// The steps of a refutation, and the removals between them. Clauses are numbered from 1, those of
/// the formula before those of the steps.
#[derive(Drop)]
pub struct Log {
    pub steps: ChainList,
    pub removals: RemovalList,
    pub ghost in_order: { IsInOrder steps removals },
}
