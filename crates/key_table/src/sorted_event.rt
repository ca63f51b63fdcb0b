ghost use Rattle.std.specs.Prelude.{◌≡◌, refl};
ghost use Rattle.std.specs.Cmp.{partial_equiv_from_equiv, eq_by_cmp_equiv};
ghost use Rattle.std.specs.Cmp.{partial_order_from_total};
ghost use Rattle.std.specs.Ordering.{as_partial_cmp, eq_by_cmp};
ghost use Rattle.key_table.specs.EventOrder.{event_cmp, event_cmp_total};

use super::order::compare_events;
use bspl_types::Event;
use std::cmp::Ordering;
use std::marker::Model;

/// An event with an order, by which a map finds it. Contracts see the event.
#[derive(Clone, Copy, Debug)]
pub struct SortedEvent {
    event: Event,
}

impl Model for SortedEvent {
    ghost use Rattle.bspl_types.specs.declared.event.Event.{Event as SpecEvent};

    ghost Value = { SpecEvent };

    ghost view = { λ s. s.event };

    ghost inverse = { λ event. record { event = event } };
}

impl SortedEvent {
    /// The event, which has its order from now on.
    pub fn of(event: &Event) -> SortedEvent
        ensures { result ≡ event.now }
    {
        SortedEvent { event: *event }
    }
}

impl PartialEq for SortedEvent {
    ghost eq = { eq_by_cmp event_cmp };

    ghost laws = { partial_equiv_from_equiv (eq_by_cmp_equiv event_cmp_total) };

    fn eq(&self, other: &SortedEvent) -> bool {
        self.cmp(other).is_eq()
    }
}

impl Eq for SortedEvent {
    ghost laws = { eq_by_cmp_equiv event_cmp_total };
}

impl Ord for SortedEvent {
    ghost cmp = { event_cmp };

    ghost total = { event_cmp_total };

    ghost matches_partial_cmp = { λ e f. refl };

    ghost matches_eq = { λ e f. refl };

    fn cmp(&self, other: &SortedEvent) -> Ordering {
        compare_events(&self.event, &other.event)
    }
}

impl PartialOrd for SortedEvent {
    ghost partial_cmp = { as_partial_cmp event_cmp };

    ghost laws = { partial_order_from_total event_cmp_total };

    fn partial_cmp(&self, other: &SortedEvent) -> Option<Ordering> {
        Some(self.cmp(other))
    }
}
