ghost use Rattle.std.specs.Prelude.{◌≡◌, IfOk, MatchOption, OnOk, take};
ghost use Rattle.bspl_parser.specs.declared.document.Document.{Document as SpecDocument};
ghost use Rattle.bspl_parser.specs.Judgement.{IsText};
ghost use Rattle.answer_words.specs.Detail.{IsDetail, IsNameDetail, IsSaid, line_at_fault};
ghost use Rattle.answer_words.specs.inner.Added.{Adds};

use super::arity::push_arity;
use super::choices::push_choices;
use super::fault::Fault;
use super::namings::push_namings;
use super::part_lines::{push_missing_part, push_refused_line};
use super::refused_place::{field_place, name_of, number_of, shown_line};
use super::uses::{push_asked, push_unknown};
use super::ways::push_ways;
use bspl_parser::{Document, answers_once, parse};
use bspl_types::Refusal;
use list_base::{Bytes, NoMemory};
use std::alloc::Global;
use tool_input::{Rejection, protocol_text};

/// Appends what helps to see the fault, beside its place.
pub(crate) fn push_detail(
    alloc: Global,
    text: &mut Bytes,
    input: &[u8],
    fault: Fault,
    rejection: &Rejection,
) -> Result<(), NoMemory>
    ensures { OnOk result (Adds (IsDetail input.now fault rejection.now) text.old text.new) }
{
    let n = number_of(&rejection.first);
    match fault {
        Fault::BadToken => push_choices(alloc, text, before(input, n)),
        Fault::NoPart => push_missing_part(alloc, text, input, name_of(&rejection.first)),
        Fault::LogForm | Fault::RunForm | Fault::HistoryForm | Fault::ScriptForm => {
            push_refused_line(text, input, n, refused_line(input, rejection))
        }
        Fault::NoProtocol
        | Fault::UnknownName
        | Fault::OtherArity
        | Fault::KeyMissing
        | Fault::ToItself
        | Fault::ParameterTwice
        | Fault::ScriptName
        | Fault::NoMessage
        | Fault::NoRoleNamed
        | Fault::NoParameter => push_of_names(alloc, text, input, fault, rejection),
        _ => Ok(()),
    }
}

/// The bytes before the offset.
fn before(input: &[u8], offset: u64) -> &[u8]
    ensures { result.now ≡ take offset input.now }
{
    &input[..offset.min(input.len() as u64) as usize]
}

/// The line of the part that is refused.
fn refused_line<'a>(input: &'a [u8], rejection: &Rejection) -> &'a [u8]
    ensures { result.now ≡ line_at_fault input.now rejection.now }
{
    shown_line(&field_place(input, rejection.code, &rejection.first))
}

/// Appends what is said of the document that the protocol text spells, if it spells one.
fn push_of_names(
    alloc: Global,
    text: &mut Bytes,
    input: &[u8],
    fault: Fault,
    rejection: &Rejection,
) -> Result<(), NoMemory>
    ensures { OnOk result (Adds (IsNameDetail input.now fault rejection.now) text.old text.new) }
{
    match document_of(alloc, protocol_text(input))? {
        Some(document) => push_said(alloc, text, input, fault, rejection, &document),
        None => Ok(()),
    }
}

/// The document that the text spells, if it spells one.
fn document_of(alloc: Global, text: &[u8]) -> Result<Option<Document<'_>>, NoMemory>
    ensures { IfOk result (λ document. MatchOption document
        ((d : SpecDocument) → ¬ IsText text.now d) (IsText text.now)) }
{
    // law: a text that is refused is no document
    answers_once();
    match parse(alloc, text) {
        Ok(document) => Ok(Some(document)),
        Err(Refusal::Byte { .. }) => Ok(None),
        Err(Refusal::Syntax { .. }) => Ok(None),
        Err(_) => Err(NoMemory),
    }
}

/// Appends what is said of the document.
fn push_said(
    alloc: Global,
    text: &mut Bytes,
    input: &[u8],
    fault: Fault,
    rejection: &Rejection,
    document: &Document<'_>,
) -> Result<(), NoMemory>
    ensures { OnOk result
        (Adds (IsSaid input.now fault rejection.now document.now) text.old text.new) }
{
    let name = name_of(&rejection.first);
    match fault {
        Fault::NoProtocol => push_asked(alloc, text, document, name),
        Fault::UnknownName => push_unknown(alloc, text, document, number_of(&rejection.first)),
        Fault::OtherArity => push_arity(text, document, number_of(&rejection.first)),
        Fault::KeyMissing | Fault::ToItself | Fault::ParameterTwice => {
            push_ways(alloc, text, input, document, name)
        }
        _ => {
            let line = refused_line(input, rejection);
            let protocols = document.protocols.as_slice();
            push_namings(
                alloc,
                text,
                protocol_text(input),
                protocols,
                fault,
                line,
                name,
            )
        }
    }
}
