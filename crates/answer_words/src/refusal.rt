ghost use Rattle.std.specs.Prelude.{◌≡◌, ◌++◌, IfOk, OnOk, drop};
ghost use Rattle.std.specs.Option.{option_map};
ghost use Rattle.answer_words.specs.Place.{spot_of};
ghost use Rattle.answer_words.specs.Refusal.{IsRefusalText, advice_at, place_text, sentence};
ghost use Rattle.answer_words.specs.RefusedPlace.{name_of, number_of};
ghost use Rattle.answer_words.specs.Sentences.{wrong};

use super::byte_advice::byte_advice;
use super::detail::push_detail;
use super::fault::{Fault, fault_of};
use super::place::{Place, push_place};
use super::refused_place::{field_place, name_of, number_of, shown_line};
use super::script_rule::{names_of, rule_of, word_of};
use super::sentences::{line_advice, push_wrong};
use super::wording::{self, WHAT_IS_WRONG, WHAT_TO_DO};
use list_base::{Bytes, NoMemory};
use std::alloc::Global;
use tool_input::{Field, Rejection, rejection_line};

/// The words of the refusal of the input.
pub fn refusal_text(alloc: Global, input: &[u8], rejection: &Rejection) -> Result<Bytes, NoMemory>
    ensures { IfOk result (IsRefusalText input.now rejection.now) }
{
    let mut text = rejection_line(alloc, rejection)?;
    let Some(fault) = fault_of(rejection.code) else {
        return Ok(text);
    };
    let place = field_place(input, rejection.code, &rejection.first);
    push_place_of(&mut text, &place)?;
    push_what_is_wrong(&mut text, fault, rejection)?;
    push_detail(alloc, &mut text, input, fault, rejection)?;
    push_what_to_do(&mut text, input, fault, &rejection.first, &place)?;
    Ok(text)
}

/// Appends the text of the place, if there is one.
fn push_place_of(text: &mut Bytes, place: &Option<Place<'_>>) -> Result<(), NoMemory>
    ensures { OnOk result
        (text.new ≡ text.old ++ place_text (option_map spot_of place.now)) }
{
    match place {
        Some(place) => push_place(text, place),
        None => Ok(()),
    }
}

/// Appends the sentence on what is wrong.
fn push_what_is_wrong(text: &mut Bytes, fault: Fault, rejection: &Rejection) -> Result<(), NoMemory>
    ensures { let first = name_of rejection.now.first in
        let second = name_of rejection.now.second in
        OnOk result (text.new ≡
        text.old ++ sentence WHAT_IS_WRONG.now (wrong fault first second)) }
{
    text.append(WHAT_IS_WRONG)?;
    push_wrong(
        text,
        fault,
        name_of(&rejection.first),
        name_of(&rejection.second),
    )?;
    text.append(wording::FULL_STOP)?;
    Ok(())
}

/// Appends the sentence on what to do.
fn push_what_to_do(
    text: &mut Bytes,
    input: &[u8],
    fault: Fault,
    first: &Option<Field>,
    place: &Option<Place<'_>>,
) -> Result<(), NoMemory>
    ensures { let said = advice_at input.now fault (number_of first.now)
        (option_map spot_of place.now) in
        OnOk result (text.new ≡ text.old ++ sentence WHAT_TO_DO.now said) }
{
    text.append(WHAT_TO_DO)?;
    text.append(advice_at(input, fault, first, place))?;
    text.append(wording::FULL_STOP)?;
    Ok(())
}

/// What to do.
fn advice_at(
    input: &[u8],
    fault: Fault,
    first: &Option<Field>,
    place: &Option<Place<'_>>,
) -> &'static [u8]
    ensures { result.now ≡
        advice_at input.now fault (number_of first.now) (option_map spot_of place.now) }
{
    match fault {
        Fault::BadByte => byte_advice(from(input, number_of(first))),
        Fault::ScriptForm => rule_of(word_of(shown_line(place))),
        Fault::ScriptName => names_of(word_of(shown_line(place))),
        _ => line_advice(fault, number_of(first)),
    }
}

/// The bytes from the offset on.
fn from(input: &[u8], offset: u64) -> &[u8]
    ensures { result.now ≡ drop offset input.now }
{
    &input[offset.min(input.len() as u64) as usize..]
}
