ghost use Rattle.std.specs.Prelude.{◌≡◌, ◌<◌, ◌++◌, length, IfOk, OnOk};
ghost use Rattle.bspl_types.specs.History.{instance_of, role_of};
ghost use Rattle.bspl_types.specs.Instance.{Fits};
ghost use Rattle.html.specs.Fragment.{as_html};
ghost use Rattle.run_chart.specs.Labels.{direction, is_far, is_ringed, label, label_head, label_room};
ghost use Rattle.run_chart.specs.Labels.{missing, missing_word, not_received, other_role, ring, side};
ghost use Rattle.run_chart.specs.Labels.{text_height};

use super::circle::push_circle;
use super::finding::{Finding, is_ringed};
use super::knowledge::Pair;
use super::occurrence::is_received;
use super::place::{column, row};
use super::shown::ShownEvent;
use super::wording::{
    ABOVE, BELOW, FROM, LABEL, LEFT_SIDE, MISSING_LABEL, NOT_RECEIVED, NOT_YET, RIGHT_SIDE, RING,
    TO,
};
use super::words::{cut, ellipsis, name_and_fields};
use bspl_types::{Event, Expanded, Message};
use html::{Fragment, fill, role_name};
use list_base::{Bytes, NoMemory};
use std::alloc::Global;

/// Appends the ring of an event that clashes with another, or may not follow.
pub(crate) fn push_ring(text: &mut Bytes, s: &ShownEvent<'_>) -> Result<(), NoMemory>
    ensures { OnOk result (text.new ≡ text.old ++
        as_html (ring (role_of s.now.x.now s.now.event.now) s.now.index
        (is_ringed s.now.finding s.now.index))) }
{
    if is_ringed(s.finding, s.index) {
        return push_circle(text, RING, s.run, s.event.role(s.x), s.index);
    }
    Ok(())
}

/// Appends the label of the event, with the pairs.
pub(crate) fn push_label(
    alloc: Global,
    text: &mut Bytes,
    s: &ShownEvent<'_>,
    shown: &[Pair],
) -> Result<(), NoMemory>
    ensures { OnOk result (text.new ≡ text.old ++
        as_html (label s.now.x.now shown.now s.now.index s.now.event.now)) }
{
    let role = s.event.role(s.x);
    let other = other_role(s.x, s.event);
    let head = label_head(alloc, s)?;
    let words = name_and_fields(alloc, s.x, head.as_slice(), shown)?;
    let room = label_room(role, other);
    fill(
        text,
        LABEL,
        &[
            Fragment::Number(column(role)),
            Fragment::Number(row(s.run, s.index)),
            Fragment::Tag(side(role, other)),
            Fragment::Tag(text_height(s.event)),
            Fragment::Number(s.index as u64 + 1),
            Fragment::Words(cut(room, words.as_slice())),
            Fragment::Tag(ellipsis(room, words.as_slice())),
        ],
    )
}

/// The name of the event's message, and the role at its other end, if its lifeline is far.
fn label_head(alloc: Global, s: &ShownEvent<'_>) -> Result<Bytes, NoMemory>
    ensures { IfOk result (λ head. head ≡ label_head s.now.x.now s.now.event.now) }
{
    let other = other_role(s.x, s.event);
    let name = s.x.message_at(s.event.instance().message).name.as_slice();
    let mut head = Bytes::from_slice(alloc, name)?;
    if is_far(s.event.role(s.x), other) {
        head.append(direction(s.event))?;
        head.append(role_name(s.x, other))?;
    }
    Ok(head)
}

/// Appends that an emission is not received.
pub(crate) fn push_missing(text: &mut Bytes, s: &ShownEvent<'_>) -> Result<(), NoMemory>
    ensures { OnOk result (text.new ≡ text.old ++ as_html (missing s.now.x.now s.now.run.now
        (missing_word s.now.finding) s.now.index s.now.event.now)) }
{
    match s.event {
        Event::Emit(instance) => {
            if is_received(s.run, instance) {
                return Ok(());
            }
            let message = s.x.message_at(instance.message);
            push_not_received(text, s.run, s.index, message, missing_word(s.finding))
        }
        Event::Receive(_) => Ok(()),
    }
}

/// Appends what is said of an emission that is not received.
fn push_not_received(
    text: &mut Bytes,
    run: &[Event],
    index: usize,
    message: &Message,
    said: &'static [u8],
) -> Result<(), NoMemory>
    requires { index < length run.now }
    ensures { OnOk result (text.new ≡ text.old ++
        as_html (not_received message.now.sender message.now.receiver index said.now)) }
{
    fill(
        text,
        MISSING_LABEL,
        &[
            Fragment::Number(column(message.sender)),
            Fragment::Number(row(run, index)),
            Fragment::Tag(side(message.sender, message.receiver)),
            Fragment::Tag(said),
        ],
    )
}

/// What is said of an emission without reception.
fn missing_word(finding: Finding) -> &'static [u8]
    ensures { result.now ≡ missing_word finding }
{
    match finding {
        Finding::Bad { .. } => NOT_YET,
        Finding::Clash { .. } | Finding::Open { .. } | Finding::Plain => NOT_RECEIVED,
    }
}

/// The role at the other end of the event's message.
fn other_role(x: &Expanded, event: &Event) -> u32
    requires { Fits x.now (instance_of event.now) }
    ensures { result ≡ other_role x.now event.now }
{
    match event {
        Event::Emit(instance) => x.message_at(instance.message).receiver,
        Event::Receive(instance) => x.message_at(instance.message).sender,
    }
}

/// Whether the lifelines of two roles have another one between them.
fn is_far(role: u32, other: u32) -> bool
    ensures { result ≡ is_far role other }
{
    u64::from(role) + 1 < u64::from(other) || u64::from(other) + 1 < u64::from(role)
}

/// How many bytes of a label there is room for between the lifelines of two roles.
fn label_room(role: u32, other: u32) -> usize
    ensures { result ≡ label_room role other }
{
    if is_far(role, other) { 44 } else { 28 }
}

/// What comes before the name of the role at the other end.
fn direction(event: &Event) -> &'static [u8]
    ensures { result.now ≡ direction event.now }
{
    match event {
        Event::Emit(_) => TO,
        Event::Receive(_) => FROM,
    }
}

/// Beside the lifeline of a role, on the side of another role.
fn side(role: u32, other: u32) -> &'static [u8]
    ensures { result.now ≡ side role other }
{
    if role < other { RIGHT_SIDE } else { LEFT_SIDE }
}

/// Above the arrow of an emission, below that of a reception.
fn text_height(event: &Event) -> &'static [u8]
    ensures { result.now ≡ text_height event.now }
{
    match event {
        Event::Emit(_) => ABOVE,
        Event::Receive(_) => BELOW,
    }
}
