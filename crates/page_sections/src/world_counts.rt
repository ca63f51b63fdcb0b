ghost use Rattle.std.specs.Prelude.{◌≡◌, ◌≤◌, ◌++◌, List, length, OnOk};
ghost use Rattle.std.specs.List.{enumerate_from, flat_map};
ghost use Rattle.bspl_types.specs.Limits.{message_limit};
ghost use Rattle.bspl_types.specs.declared.event.Event.{Event};
ghost use Rattle.html.specs.Fragment.{as_html};
ghost use Rattle.page_sections.specs.WorldSection.{count_item, count_row, count_table};
ghost use Rattle.report.specs.WorldCounts.{AreMessageCounts};

use super::wording::{COUNTS_ROW, COUNTS_START};
use bspl_types::{Expanded, Message};
use html::{Fragment, TABLE_END, fill, push_fragments};
use list_base::{Bytes, NoMemory};
use report::Count;

/// Appends the table of how often each message was sent and received.
pub(crate) fn push_counts(text: &mut Bytes, x: &Expanded, counts: &[Count]) -> Result<(), NoMemory>
    requires { length counts.now ≡ message_limit }
    ensures { OnOk result ((run : List Event) → AreMessageCounts run counts.now →
        text.new ≡ text.old ++ as_html (count_table x.now run)) }
{
    push_fragments(text, &[Fragment::Tag(COUNTS_START)])?;
    push_rows(text, x.messages.as_slice(), counts)?;
    push_fragments(text, &[Fragment::Tag(TABLE_END)])
}

/// Appends the row of each message.
fn push_rows(text: &mut Bytes, messages: &[Message], counts: &[Count]) -> Result<(), NoMemory>
    requires few { length messages.now ≤ message_limit }
    requires all { length counts.now ≡ message_limit }
    ensures { OnOk result ((run : List Event) → AreMessageCounts run counts.now →
        text.new ≡ text.old ++ as_html (flat_map (count_item run) (enumerate_from 0 messages.now))) }
{
    for (number, message) in messages.iter().enumerate() {
        push_row(text, message, counts[number])?;
    }
    Ok(())
}

/// Appends the row of a message with its count.
fn push_row(text: &mut Bytes, message: &Message, count: Count) -> Result<(), NoMemory>
    ensures { OnOk result (text.new ≡ text.old ++ as_html (count_row message.now count)) }
{
    fill(
        text,
        COUNTS_ROW,
        &[
            Fragment::Words(message.name.as_slice()),
            Fragment::Number(count.sent as u64),
            Fragment::Number(count.received as u64),
        ],
    )
}
