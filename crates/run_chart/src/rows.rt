ghost use Rattle.std.specs.Prelude.{◌≡◌, ◌++◌, OnOk};
ghost use Rattle.html.specs.Fragment.{as_html};
ghost use Rattle.run_chart.specs.EventTable.{event_start, ring_words};

use super::finding::ring_words;
use super::shown::ShownEvent;
use super::wording::{EMISSION, RECEPTION};
use bspl_types::Event;
use html::{Fragment, fill, role_name};
use list_base::{Bytes, NoMemory};

/// Appends the number of the event, the event in words, and what its ring means.
pub(crate) fn push_row_start(text: &mut Bytes, s: &ShownEvent<'_>) -> Result<(), NoMemory>
    ensures { OnOk result (text.new ≡ text.old ++
        as_html (event_start s.now.x.now s.now.index s.now.event.now
        (ring_words s.now.finding s.now.index))) }
{
    let message = s.x.message_at(s.event.instance().message);
    let sender = role_name(s.x, message.sender);
    let receiver = role_name(s.x, message.receiver);
    let (template, role, other) = match s.event {
        Event::Emit(_) => (EMISSION, sender, receiver),
        Event::Receive(_) => (RECEPTION, receiver, sender),
    };
    fill(
        text,
        template,
        &[
            Fragment::Number(s.index as u64 + 1),
            Fragment::Words(role),
            Fragment::Words(message.name.as_slice()),
            Fragment::Words(other),
            Fragment::Tag(ring_words(s.finding, s.index)),
        ],
    )
}
