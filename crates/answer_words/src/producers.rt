ghost use Rattle.std.specs.Prelude.{◌≡◌, ◌<◌, ◌++◌, ◌↔◌, IfOk, IsTrue, OnOk, length};
ghost use Rattle.bspl_types.specs.declared.protocol.Adornment.TheVariants.{Out};
ghost use Rattle.bspl_types.specs.Expansion.{IsAdorned, message_of};
ghost use Rattle.bspl_types.specs.History.{IsRun, sender_history};
ghost use Rattle.bspl_types.specs.Knowledge.{CanEmit};
ghost use Rattle.role_knowledge.specs.Blocked.{IsFirstBlock};
ghost use Rattle.witness_replay.specs.Witness.{key_of_ones};
ghost use Rattle.answer_words.specs.Producers.{AreBlocked, ListsProducers, block_words};
ghost use Rattle.answer_words.specs.Producers.{blocked_line};
ghost use Rattle.answer_words.specs.inner.Producer.{AddsProducer};

use super::messages::{param_name, push_message, role_name};
use super::wording::{self, verdicts};
use bspl_types::{Adornment, Event, Expanded, Message};
use list_base::{Bytes, NoMemory};
use role_knowledge::{Block, enabled};
use std::alloc::Global;
use witness_replay::key_of_ones;

/// The lines of the messages that produce the parameter, which all are blocked after the run.
pub(crate) fn producer_lines(
    alloc: Global,
    x: &Expanded,
    run: &[Event],
    param: u32,
) -> Result<Bytes, NoMemory>
    requires some_key { 0 < length x.now.keys }
    requires fits { IsRun x.now run.now }
    requires blocked { AreBlocked x.now run.now param }
    ensures { IfOk result (ListsProducers x.now run.now param x.now.messages) }
{
    let mut text = Bytes::new(alloc);
    for message in 0..x.messages.len() as u32 {
        push_producer(&mut text, x, run, param, message)?;
    }
    Ok(text)
}

/// Appends the line of the message, if it produces the parameter.
fn push_producer(
    text: &mut Bytes,
    x: &Expanded,
    run: &[Event],
    param: u32,
    message: u32,
) -> Result<(), NoMemory>
    requires some_key { 0 < length x.now.keys }
    requires fits { IsRun x.now run.now }
    requires known { message < length x.now.messages }
    requires blocked { AreBlocked x.now run.now param }
    ensures { OnOk result
        (AddsProducer x.now run.now param (message_of x.now message) text.old text.new) }
{
    if !produces(x.message_at(message), param) {
        return Ok(());
    }
    push_blocked(text, x, x.message_at(message), first_block(x, run, message))
}

/// Whether the message adorns the parameter `out`.
fn produces(message: &Message, param: u32) -> bool
    ensures { IsTrue result ↔ IsAdorned message.now Out param }
{
    let carried = message.carried.as_slice();
    carried
        .iter()
        .any(|c| c.param == param && c.adornment == Adornment::Out)
}

/// What first keeps the message from being sent after the run under the key of all ones.
fn first_block(x: &Expanded, run: &[Event], message: u32) -> Block
    requires some_key { 0 < length x.now.keys }
    requires fits { IsRun x.now run.now }
    requires known { message < length x.now.messages }
    requires blocked { let history = sender_history x.now run.now message in
        ¬ CanEmit x.now history message (key_of_ones x.now) }
    ensures { let history = sender_history x.now run.now message in
        IsFirstBlock x.now history (key_of_ones x.now) (message_of x.now message).carried result }
{
    let key = key_of_ones(x);
    match enabled(x, run, message, &key) {
        Ok(()) => unreachable!(),
        Err(block) => block,
    }
}

/// Appends the line of the message and of what blocks it.
fn push_blocked(
    text: &mut Bytes,
    x: &Expanded,
    message: &Message,
    block: Block,
) -> Result<(), NoMemory>
    ensures { OnOk result (text.new ≡ text.old ++ blocked_line x.now message.now block) }
{
    push_message(text, x, message)?;
    text.append(verdicts::WOULD_PRODUCE)?;
    text.append(role_name(x, message.sender))?;
    push_block(text, x, block)?;
    text.append(wording::FULL_STOP)
}

/// Appends what a sender does not know, or knows already.
fn push_block(text: &mut Bytes, x: &Expanded, block: Block) -> Result<(), NoMemory>
    ensures { OnOk result (text.new ≡ text.old ++ block_words x.now block) }
{
    match block {
        Block::Missing { param } => {
            text.append(verdicts::DOES_NOT_KNOW)?;
            text.append(param_name(x, param))
        }
        Block::Bound { param, kept } => {
            text.append(verdicts::KNOWS)?;
            text.append(param_name(x, param))?;
            text.push(b'=')?;
            kept.write(text)?;
            text.append(verdicts::ALREADY)
        }
    }
}
