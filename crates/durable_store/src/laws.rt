ghost use Rattle.durable_store.specs.Laws.{HistoriesAreNative, JournalsAreOne};
ghost use Rattle.durable_store.specs.inner.Begun.{BegunAreNative};

use role_journal::{bodies_are_distinct, bodies_are_whole};

/// An image is a journal of one list of entries at most.
pub fn journals_are_one()
    ensures { JournalsAreOne }
{
    // law: each body is that of one entry
    bodies_are_distinct();
    // law: a body fills its place
    bodies_are_whole();
}

/// In a journal of a role's history no place is alien to the role.
pub fn histories_are_native()
    ensures { HistoriesAreNative }
{
    // law: no place of the first entries is alien
    begun_are_native();
}

/// No place of the first entries of an image is alien.
pub(crate) fn begun_are_native()
    ensures { BegunAreNative }
{
    // law: each body is that of one entry
    bodies_are_distinct();
    // law: a body fills its place
    bodies_are_whole();
}
