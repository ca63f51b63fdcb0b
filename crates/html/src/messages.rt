ghost use Rattle.std.specs.Prelude.{◌≡◌, ◌++◌, OnOk};
ghost use Rattle.std.specs.List.{flat_map};
ghost use Rattle.html.specs.Fragment.{as_html};
ghost use Rattle.html.specs.Tables.{message_row, message_table, param_item, param_template};

use super::fragment::{Fragment, fill};
use super::names::{adornment_word, is_key, param_name, role_name};
use super::wording::{KEY_PARAMETER, MESSAGE, MESSAGE_END, MESSAGES, PARAMETER, TABLE_END};
use bspl_types::{Carried, Expanded, Message};
use list_base::{Bytes, NoMemory};

/// Appends the table of messages.
pub fn push_messages(text: &mut Bytes, x: &Expanded) -> Result<(), NoMemory>
    ensures { OnOk result (text.new ≡ text.old ++ as_html (message_table x.now)) }
{
    fill(text, MESSAGES, &[])?;
    push_rows(text, x, x.messages.as_slice())?;
    fill(text, TABLE_END, &[])
}

/// Appends the row of each message.
#[tactic(auto, using(crate::proofs::WritingLemmas::written_next))]
fn push_rows(text: &mut Bytes, x: &Expanded, messages: &[Message]) -> Result<(), NoMemory>
    ensures { OnOk result (text.new ≡
        text.old ++ as_html (flat_map (message_row x.now) messages.now)) }
{
    for message in messages {
        push_row(text, x, message)?;
    }
    Ok(())
}

/// Appends the row of a message.
fn push_row<'x>(text: &mut Bytes, x: &'x Expanded, message: &'x Message) -> Result<(), NoMemory>
    ensures { OnOk result (text.new ≡ text.old ++ as_html (message_row x.now message.now)) }
{
    fill(
        text,
        MESSAGE,
        &[
            Fragment::Words(message.name.as_slice()),
            Fragment::Words(role_name(x, message.sender)),
            Fragment::Words(role_name(x, message.receiver)),
        ],
    )?;
    push_params(text, x, message.carried.as_slice())?;
    fill(text, MESSAGE_END, &[])
}

/// Appends the parameters of a message.
#[tactic(auto, using(crate::proofs::WritingLemmas::written_next))]
fn push_params(text: &mut Bytes, x: &Expanded, carried: &[Carried]) -> Result<(), NoMemory>
    ensures { OnOk result (text.new ≡
        text.old ++ as_html (flat_map (param_item x.now) carried.now)) }
{
    for c in carried {
        push_param(text, x, *c)?;
    }
    Ok(())
}

/// Appends a parameter of a message.
fn push_param(text: &mut Bytes, x: &Expanded, c: Carried) -> Result<(), NoMemory>
    ensures { OnOk result (text.new ≡ text.old ++ as_html (param_item x.now c)) }
{
    fill(
        text,
        param_template(is_key(x, c.param)),
        &[
            Fragment::Words(adornment_word(c.adornment)),
            Fragment::Words(param_name(x, c.param)),
        ],
    )
}

/// How a parameter is shown: a key is marked.
fn param_template(key: bool) -> &'static [u8]
    ensures { result.now ≡ param_template key }
{
    if key { KEY_PARAMETER } else { PARAMETER }
}
