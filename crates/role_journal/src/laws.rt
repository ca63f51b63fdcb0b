ghost use Rattle.role_journal.specs.EntryBody.{BodiesAreDistinct, BodiesAreWhole};
ghost use Rattle.role_journal.specs.EntryBody.{FittingInstancesAreOne};

/// Two entries of a protocol that have one body are one entry.
pub fn bodies_are_distinct()
    ensures { BodiesAreDistinct }
{}

/// The body of an entry fills a place behind its gate.
pub fn bodies_are_whole()
    ensures { BodiesAreWhole }
{}

/// A law: the message and the values of an instance tell its key.
pub fn fitting_instances_are_one()
    ensures { FittingInstancesAreOne }
{}
