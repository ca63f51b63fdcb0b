ghost use Rattle.std.specs.Prelude.{◌≡◌, ◌++◌, codes, OnOk};
ghost use Rattle.serde_json.specs.Data.{string};
ghost use Rattle.serde_json.specs.Written.{compact_text};
ghost use Rattle.wire_form.specs.Reply.{block_data, message_data, only};
ghost use Rattle.wire_form.specs.Reply.{receipt_data, refusal_code, reply_text};

use super::message_text::push_message;
use super::names::param_name;
use super::quoted::{push_quoted, push_value};
use super::reply::{Refusal, Reply};
use bspl_types::{Expanded, Stamped};
use list_base::{Bytes, NoMemory};
use local_store::Receipt;
use role_knowledge::Block;
use std::alloc::Global;

/// Writes the line of the reply.
pub fn push_reply(
    alloc: Global,
    text: &mut Bytes,
    x: &Expanded,
    reply: &Reply,
) -> Result<(), NoMemory>
    ensures { OnOk result (text.new ≡ text.old ++ reply_text x.now reply.now) }
{
    match reply {
        Reply::Refused(refusal) => push_refusal(text, *refusal)?,
        Reply::Received(receipt) => push_receipt(alloc, text, x, receipt)?,
        Reply::Sent(message) => push_sent(alloc, text, x, message)?,
        Reply::Blocked(block) => push_block(alloc, text, x, block)?,
    }
    text.push(b'\n')
}

/// Writes why a line is refused.
#[tactic(auto, unfolding(json::specs::Print::escape_byte))]
fn push_refusal(text: &mut Bytes, refusal: Refusal) -> Result<(), NoMemory>
    ensures { OnOk result (text.new ≡ text.old ++
        compact_text (only (codes "refused") (string (refusal_code refusal)))) }
{
    match refusal {
        Refusal::F1 => text.append(b"{\"refused\":\"F1\"}"),
        Refusal::F2 => text.append(b"{\"refused\":\"F2\"}"),
        Refusal::F3 => text.append(b"{\"refused\":\"F3\"}"),
        Refusal::F4 => text.append(b"{\"refused\":\"F4\"}"),
    }
}

/// Writes how a message was received.
#[tactic(auto, unfolding(json::specs::Print::escape_byte))]
fn push_receipt(
    alloc: Global,
    text: &mut Bytes,
    x: &Expanded,
    receipt: &Receipt,
) -> Result<(), NoMemory>
    ensures { OnOk result (text.new ≡ text.old ++ compact_text (receipt_data x.now receipt.now)) }
{
    match receipt {
        Receipt::Fresh => text.append(b"{\"receipt\":\"fresh\"}"),
        Receipt::Repeat => text.append(b"{\"receipt\":\"repeat\"}"),
        Receipt::Differs {
            param,
            kept,
            arrived,
        } => {
            text.append(b"{\"arrived\":")?;
            push_value(alloc, text, arrived)?;
            text.append(b",\"kept\":")?;
            push_value(alloc, text, kept)?;
            text.append(b",\"param\":")?;
            push_quoted(text, param_name(x, *param))?;
            text.append(b",\"receipt\":\"differs\"}")
        }
    }
}

/// Writes why a message cannot be emitted.
#[tactic(auto, unfolding(json::specs::Print::escape_byte))]
fn push_block(alloc: Global, text: &mut Bytes, x: &Expanded, block: &Block) -> Result<(), NoMemory>
    ensures { OnOk result (text.new ≡ text.old ++ compact_text (block_data x.now block.now)) }
{
    match block {
        Block::Missing { param } => {
            text.append(b"{\"blocked\":\"missing\",\"param\":")?;
            push_quoted(text, param_name(x, *param))?;
            text.push(b'}')
        }
        Block::Bound { param, kept } => {
            text.append(b"{\"blocked\":\"bound\",\"kept\":")?;
            push_value(alloc, text, kept)?;
            text.append(b",\"param\":")?;
            push_quoted(text, param_name(x, *param))?;
            text.push(b'}')
        }
    }
}

/// Writes a message that was sent.
fn push_sent(
    alloc: Global,
    text: &mut Bytes,
    x: &Expanded,
    message: &Stamped,
) -> Result<(), NoMemory>
    ensures { OnOk result (text.new ≡
        text.old ++ compact_text (only (codes "sent") (message_data x.now message.now))) }
{
    text.append(b"{\"sent\":")?;
    push_message(alloc, text, x, message)?;
    text.push(b'}')
}
