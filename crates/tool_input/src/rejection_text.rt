ghost use Rattle.std.specs.Prelude.{◌≡◌, ◌++◌, IfOk, OnOk};
ghost use Rattle.tool_input.specs.Rejection.{after_space, code_text, rejection_line, what_word};

use super::rejection::{Code, Field, Rejection};
use super::status::Status;
use bspl_types::{Bytes, NoMemory, What};
use program_frame::Reply;
use std::alloc::Global;

/// The reply to what is refused.
pub fn refused(alloc: Global, rejection: &Rejection) -> Result<Reply<Status>, NoMemory>
    ensures { IfOk result (λ reply.
        (reply.text ≡ rejection_line rejection.now) × (reply.status ≡ Status.Refused)) }
{
    Ok(Reply {
        status: Status::Refused,
        text: rejection_line(alloc, rejection)?,
    })
}

/// The line in which a rejection is written.
pub fn rejection_line(alloc: Global, rejection: &Rejection) -> Result<Bytes, NoMemory>
    ensures { IfOk result (λ text. text ≡ rejection_line rejection.now) }
{
    let mut text = Bytes::from_slice(alloc, b"refused ")?;
    push_code(alloc, &mut text, rejection.code)?;
    push_field(alloc, &mut text, &rejection.first)?;
    push_field(alloc, &mut text, &rejection.second)?;
    text.push(b'\n')?;
    Ok(text)
}

/// Writes the letter and the number of a code.
fn push_code(alloc: Global, text: &mut Bytes, code: Code) -> Result<(), NoMemory>
    ensures { OnOk result (text.new ≡ text.old ++ code_text code) }
{
    let (letter, number) = match code {
        Code::P(number) => (b'P', number),
        Code::E(number) => (b'E', number),
        Code::L(number) => (b'L', number),
        Code::W(number) => (b'W', number),
        Code::S(number) => (b'S', number),
        Code::H(number) => (b'H', number),
        Code::F(number) => (b'F', number),
        Code::Q(number) => (b'Q', number),
    };
    text.push(letter)?;
    text.append(number.to_string(alloc)?.as_bytes())
}

/// Writes a space and the field, if there is one.
fn push_field(alloc: Global, text: &mut Bytes, field: &Option<Field>) -> Result<(), NoMemory>
    ensures { OnOk result (text.new ≡ text.old ++ after_space field.now) }
{
    let Some(field) = field else {
        return Ok(());
    };
    text.push(b' ')?;
    match field {
        Field::Number(number) => text.append(number.to_string(alloc)?.as_bytes()),
        Field::Name(name) => text.append(name.as_slice()),
        Field::Counted(what) => text.append(what_word(*what)),
        Field::Part(part) => text.append(part.name()),
    }
}

/// The word for what is counted.
fn what_word(what: What) -> &'static [u8]
    ensures { result.now ≡ what_word what }
{
    match what {
        What::Text => b"text",
        What::Protocols => b"protocols",
        What::Depth => b"depth",
        What::Roles => b"roles",
        What::Parameters => b"parameters",
        What::Keys => b"keys",
        What::Carried => b"carried",
        What::Messages => b"messages",
    }
}
