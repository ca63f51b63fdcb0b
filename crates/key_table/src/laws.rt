ghost use Rattle.key_table.specs.EventOrder.{TiedEventsAreOne};
ghost use Rattle.key_table.specs.KeyOrder.{TiedKeysAreOne};

/// A law: keys that are equal by their order are one key.
pub fn tied_keys_are_one()
    ensures { TiedKeysAreOne }
{}

/// A law: events that are equal by their order are one event.
pub fn tied_events_are_one()
    ensures { TiedEventsAreOne }
{}
