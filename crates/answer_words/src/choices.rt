ghost use Rattle.std.specs.Prelude.{◌↔◌, IfOk, IsTrue, OnOk};
ghost use Rattle.answer_words.specs.Choices.{IsChoiceLine, IsRefusedWithin, ListsChoices, MayComeNext, signs};
ghost use Rattle.answer_words.specs.inner.Added.{Adds};
ghost use Rattle.answer_words.specs.inner.Choice.{IsChoice};

use super::wording::details;
use bspl_parser::{answers_once, parse};
use bspl_types::Refusal;
use list_base::{Bytes, NoMemory};
use std::alloc::Global;
use text_lines::first_field;

/// Appends the line that lists what may stand after the text.
pub(crate) fn push_choices(alloc: Global, text: &mut Bytes, before: &[u8]) -> Result<(), NoMemory>
    ensures { OnOk result (Adds (IsChoiceLine before.now) text.old text.new) }
{
    text.append(details::HERE_MAY_STAND)?;
    push_signs(alloc, text, before)?;
    text.push(b'\n')
}

/// Appends those of the signs that may stand after the text, each after a space.
fn push_signs(alloc: Global, text: &mut Bytes, before: &[u8]) -> Result<(), NoMemory>
    ensures { OnOk result (Adds (ListsChoices before.now signs) text.old text.new) }
{
    let mut rest = details::SIGNS;
    'signs: while let Some((sign, more)) = first_field(rest) {
        push_choice(alloc, text, before, sign)?;
        rest = more;
    }
    Ok(())
}

/// Appends the sign after a space, if it may stand after the text.
fn push_choice(alloc: Global, text: &mut Bytes, before: &[u8], sign: &[u8]) -> Result<(), NoMemory>
    ensures { OnOk result (IsChoice before.now sign.now text.old text.new) }
{
    if !may_stand(alloc, before, sign)? {
        return Ok(());
    }
    text.push(b' ')?;
    text.append(sign)?;
    Ok(())
}

/// Whether the sign may stand after the text.
fn may_stand(alloc: Global, before: &[u8], sign: &[u8]) -> Result<bool, NoMemory>
    ensures { IfOk result (λ may. IsTrue may ↔ MayComeNext before.now sign.now) }
{
    let mut text = Bytes::from_slice(alloc, before)?;
    text.push(b'\n')?;
    text.append(sign)?;
    is_free(alloc, text.as_slice())
}

/// Whether nothing of the text is refused before its end.
fn is_free(alloc: Global, text: &[u8]) -> Result<bool, NoMemory>
    ensures { IfOk result (λ free. IsTrue free ↔ (¬ IsRefusedWithin text.now)) }
{
    // law: a text is a document, or refused at one offset
    answers_once();
    match parse(alloc, text) {
        Ok(_) => Ok(true),
        Err(Refusal::Syntax { offset }) => {
            if offset < text.len() as u64 {
                return Ok(false);
            }
            Ok(true)
        }
        Err(Refusal::Byte { offset }) => {
            if offset < text.len() as u64 {
                return Ok(false);
            }
            Ok(true)
        }
        Err(_) => Err(NoMemory),
    }
}
