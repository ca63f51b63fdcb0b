ghost use Rattle.std.specs.Prelude.{◌≡◌, ◌++◌, map, not, IfOk, OnOk};
ghost use Rattle.std.specs.List.{enumerate_from, flat_map, list_any};
ghost use Rattle.bspl_types.specs.Expansion.{message_name};
ghost use Rattle.html.specs.Fragment.{as_html};
ghost use Rattle.page_sections.specs.Fates.{fate_item, fates_list, fates_section, is_never_sent, is_sent};

use super::wording::{DEAD_END, DEAD_START, IS_DEAD, IS_UNDECIDED, NONE_DEAD};
use bspl_types::Expanded;
use html::{Fragment, fill, push_fragments};
use list_base::{Bytes, NoMemory, Seq};
use message_fates::Fate;
use std::alloc::Global;

/// Appends which of the messages are dead, from the fates of all messages in order.
pub(crate) fn push_fates(text: &mut Bytes, x: &Expanded, fates: &[Fate]) -> Result<(), NoMemory>
    ensures { OnOk result (text.new ≡ text.old ++ as_html (fates_section x.now fates.now)) }
{
    if has_unsent(fates) {
        push_list(text, x, fates)
    } else {
        push_fragments(text, &[Fragment::Tag(NONE_DEAD)])
    }
}

/// Whether one of the messages is dead or undecided.
fn has_unsent(fates: &[Fate]) -> bool
    ensures { result ≡ list_any (λ fate. not (is_sent fate)) fates.now }
{
    fates.iter().any(|fate| !is_sent(*fate))
}

/// Whether some legal run sends the message.
fn is_sent(fate: Fate) -> bool
    ensures { result ≡ is_sent fate }
{
    matches!(fate, Fate::Sent)
}

/// Which of the messages are dead.
pub(crate) fn dead_of(alloc: Global, fates: &[Fate]) -> Result<Seq<bool>, NoMemory>
    ensures { IfOk result (λ dead. dead ≡ map is_never_sent fates.now) }
{
    let mut dead = Seq::new(alloc);
    for fate in fates {
        dead.push(is_never_sent(*fate))?;
    }
    Ok(dead)
}

/// Whether no legal run sends the message.
fn is_never_sent(fate: Fate) -> bool
    ensures { result ≡ is_never_sent fate }
{
    matches!(fate, Fate::Dead)
}

/// Appends the list of dead and undecided messages.
fn push_list(text: &mut Bytes, x: &Expanded, fates: &[Fate]) -> Result<(), NoMemory>
    ensures { OnOk result (text.new ≡ text.old ++ as_html (fates_list x.now fates.now)) }
{
    push_fragments(text, &[Fragment::Tag(DEAD_START)])?;
    push_items(text, x, fates)?;
    push_fragments(text, &[Fragment::Tag(DEAD_END)])
}

/// Appends the item of each message.
#[tactic(auto, using(html::proofs::IndexLemmas::enumerate_more, html::proofs::IndexLemmas::enumerate_all))]
fn push_items(text: &mut Bytes, x: &Expanded, fates: &[Fate]) -> Result<(), NoMemory>
    ensures { OnOk result (text.new ≡
        text.old ++ as_html (flat_map (fate_item x.now) (enumerate_from 0 fates.now))) }
{
    for (message, fate) in fates.iter().enumerate() {
        push_item(text, x, message, fate)?;
    }
    Ok(())
}

/// Appends the item of a message, unless some legal run sends it.
fn push_item(text: &mut Bytes, x: &Expanded, message: usize, fate: &Fate) -> Result<(), NoMemory>
    ensures { OnOk result (text.new ≡ text.old ++ as_html (fate_item x.now (message, fate.now))) }
{
    match fate {
        Fate::Sent => Ok(()),
        Fate::Dead => fill(text, IS_DEAD, &[Fragment::Words(message_name(x, message))]),
        Fate::Undecided => fill(
            text,
            IS_UNDECIDED,
            &[Fragment::Words(message_name(x, message))],
        ),
    }
}

/// The name of the message with this index. Past the last one there is none.
fn message_name(x: &Expanded, message: usize) -> &[u8]
    ensures { result.now ≡ message_name x.now message }
{
    match x.messages.as_slice().get(message) {
        Some(message) => message.name.as_slice(),
        None => b"",
    }
}
