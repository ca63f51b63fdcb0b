ghost use Rattle.std.specs.Prelude.{◌≡◌, ◌<◌, ◌++◌, length, OnOk};
ghost use Rattle.std.specs.List.{flat_map};
ghost use Rattle.html.specs.Fragment.{as_html};
ghost use Rattle.run_chart.specs.Drawing.{arrow_head, drawn, head_start, open_end};
ghost use Rattle.run_chart.specs.Strokes.{Arrow, Stub, line_at, strokes, strokes_at};

use super::circle::push_circle;
use super::occurrence::{emission_index, is_received};
use super::place::{column, row};
use super::shown::{Shown, ShownEvent};
use super::wording::{ARROW, LEFT_END, LEFT_HEAD, MARK, RIGHT_END, RIGHT_HEAD, STUB};
use bspl_types::{Event, Message};
use html::{Fragment, fill};
use list_base::{Bytes, NoMemory};

/// Appends the strokes of each event.
pub(crate) fn push_strokes(text: &mut Bytes, s: &Shown<'_>) -> Result<(), NoMemory>
    ensures { OnOk result (text.new ≡
        text.old ++ as_html (flat_map drawn (strokes s.now.x.now s.now.run.now))) }
{
    let run = s.run;
    for (index, event) in run.iter().enumerate() {
        let at = ShownEvent {
            x: s.x,
            run,
            finding: s.finding,
            index,
            event,
        };
        push_strokes_at(text, &at)?;
    }
    Ok(())
}

/// Appends the strokes of the event: what leads to it or from it, and its mark.
fn push_strokes_at(text: &mut Bytes, s: &ShownEvent<'_>) -> Result<(), NoMemory>
    ensures { OnOk result (text.new ≡ text.old ++ as_html (flat_map drawn
        (strokes_at s.now.x.now s.now.run.now (s.now.index, s.now.event.now)))) }
{
    push_line(text, s)?;
    push_circle(text, MARK, s.run, s.event.role(s.x), s.index)
}

/// Appends the arrow of a reception, or the stub of an emission that is not received.
fn push_line(text: &mut Bytes, s: &ShownEvent<'_>) -> Result<(), NoMemory>
    ensures { OnOk result (text.new ≡ text.old ++ as_html (flat_map drawn
        (line_at s.now.x.now s.now.run.now s.now.index s.now.event.now))) }
{
    match s.event {
        Event::Emit(instance) => {
            if is_received(s.run, instance) {
                return Ok(());
            }
            push_stub(text, s.run, s.index, s.x.message_at(instance.message))
        }
        Event::Receive(instance) => match emission_index(s.run, instance) {
            Some(sent) => {
                let message = s.x.message_at(instance.message);
                push_arrow(text, s.run, sent, s.index, message)
            }
            None => Ok(()),
        },
    }
}

/// Appends the arrow from the row of the emission to that of the reception.
fn push_arrow(
    text: &mut Bytes,
    run: &[Event],
    sent: usize,
    received: usize,
    message: &Message,
) -> Result<(), NoMemory>
    requires emitted { sent < length run.now }
    requires within { received < length run.now }
    ensures { OnOk result (text.new ≡ text.old ++
        as_html (drawn (Arrow sent message.now.sender received message.now.receiver))) }
{
    fill(
        text,
        ARROW,
        &[
            Fragment::Number(column(message.sender)),
            Fragment::Number(row(run, sent)),
            Fragment::Number(head_start(message.sender, message.receiver)),
            Fragment::Number(row(run, received)),
            Fragment::Tag(arrow_head(message.sender, message.receiver)),
        ],
    )
}

/// Appends the stub of an emission.
fn push_stub(
    text: &mut Bytes,
    run: &[Event],
    index: usize,
    message: &Message,
) -> Result<(), NoMemory>
    requires { index < length run.now }
    ensures { OnOk result (text.new ≡ text.old ++
        as_html (drawn (Stub index message.now.sender message.now.receiver))) }
{
    fill(
        text,
        STUB,
        &[
            Fragment::Number(column(message.sender)),
            Fragment::Number(row(run, index)),
            Fragment::Tag(open_end(message.sender, message.receiver)),
        ],
    )
}

/// Where an arrow's head begins.
fn head_start(sender: u32, receiver: u32) -> u64
    ensures { result ≡ head_start sender receiver }
{
    if sender < receiver {
        74 + 180 * u64::from(receiver)
    } else {
        106 + 180 * u64::from(receiver)
    }
}

/// The head of an arrow.
fn arrow_head(sender: u32, receiver: u32) -> &'static [u8]
    ensures { result.now ≡ arrow_head sender receiver }
{
    if sender < receiver {
        RIGHT_HEAD
    } else {
        LEFT_HEAD
    }
}

/// A short line with an open circle at its end.
fn open_end(sender: u32, receiver: u32) -> &'static [u8]
    ensures { result.now ≡ open_end sender receiver }
{
    if sender < receiver {
        RIGHT_END
    } else {
        LEFT_END
    }
}
