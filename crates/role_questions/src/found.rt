ghost use Rattle.std.specs.Prelude.{◌≡◌, ◌≢◌, ℕ, List, MatchOption};
ghost use Rattle.serde_json.specs.Data.{Data, no_members, object};
ghost use Rattle.serde_json.specs.View.{view};
ghost use Rattle.wire_form.specs.Reply.{only};
ghost use Rattle.wire_form.specs.Texts.{texts_in};
ghost use Rattle.role_questions.specs.Questions.{AsksPart, IsPart, TextQuestion, key_members};
ghost use Rattle.role_questions.specs.Questions.{part_members, question_data};
ghost use Rattle.role_questions.specs.inner.Found.{question_in};

use serde_json::Value;
use wire_form::{are_texts, arrays_have_texts};

/// A first index past the last one that is asked about.
const FROM_END: u64 = 4_294_967_296;

/// The most items that a question is about.
const MOST_LIMIT: u64 = 1024;

/// What a value asks, before the key is read.
#[derive(Clone, Copy)]
pub(crate) enum Found<'a> {
    Enabled(&'a Vec<Value>),
    Known(&'a Vec<Value>),
    Keys { from: u32, most: u32 },
    History { from: u32, most: u32 },
    Status,
}

/// What the value asks, if it has exactly the members and kinds of a question.
pub(crate) fn found_in(value: &Value) -> Option<Found<'_>>
    ensures { MatchOption result
        ((asked : TextQuestion) → AsksPart asked → view value.now ≢ question_data asked)
        (λ f. AsksPart (question_in f) × (view value.now ≡ question_data (question_in f))) }
{
    let (name, inner) = only_member(value)?;
    match name {
        "enabled" => Some(Found::Enabled(key_in(inner)?)),
        "known" => Some(Found::Known(key_in(inner)?)),
        "keys" => {
            let (from, most) = part_in(inner)?;
            Some(Found::Keys { from, most })
        }
        "history" => {
            let (from, most) = part_in(inner)?;
            Some(Found::History { from, most })
        }
        "status" => {
            nothing_in(inner)?;
            Some(Found::Status)
        }
        _ => None,
    }
}

/// The name and the value of the member, if the value has exactly one.
fn only_member(value: &Value) -> Option<(&str, &Value)>
    ensures { MatchOption result
        ((name : List ℕ) (inner : Data) → view value.now ≢ only name inner)
        (λ m. view value.now ≡ only m.0.now (view m.1.now)) }
{
    let mut members = value.as_object()?.iter();
    let (name, inner) = members.next()?;
    if members.next().is_some() {
        return None;
    }
    Some((name.as_str(), inner))
}

/// The values of the key that the inner value asks about, if they are strings.
fn key_in(value: &Value) -> Option<&Vec<Value>>
    ensures { MatchOption result
        ((key : List (List ℕ)) → view value.now ≢ key_members key)
        (λ items. view value.now ≡ key_members (texts_in items.now.items)) }
{
    // law: an array of texts is one of strings
    arrays_have_texts();
    let (name, inner) = only_member(value)?;
    if name != "key" {
        return None;
    }
    let items = inner.as_array()?;
    if are_texts(items.as_slice()) {
        Some(items)
    } else {
        None
    }
}

/// The first index and the most items that the inner value asks about.
fn part_in(value: &Value) -> Option<(u32, u32)>
    ensures { MatchOption result
        ((from most : ℕ) → IsPart from most → view value.now ≢ part_members from most)
        (λ p. IsPart p.0 p.1 × (view value.now ≡ part_members p.0 p.1)) }
{
    let (from, most) = numbers_in(value)?;
    if from >= FROM_END || most > MOST_LIMIT {
        return None;
    }
    Some((from as u32, most as u32))
}

/// The numbers of the members, if these are exactly `from` and `most`.
fn numbers_in(value: &Value) -> Option<(u64, u64)>
    ensures { MatchOption result
        ((from most : ℕ) → view value.now ≢ part_members from most)
        (λ p. view value.now ≡ part_members p.0 p.1) }
{
    let mut members = value.as_object()?.iter();
    let (from_name, from) = members.next()?;
    let (most_name, most) = members.next()?;
    if members.next().is_some() {
        return None;
    }
    if from_name.as_str() != "from" || most_name.as_str() != "most" {
        return None;
    }
    Some((from.as_u64()?, most.as_u64()?))
}

/// Nothing, if the value is an object without members.
fn nothing_in(value: &Value) -> Option<()>
    ensures { MatchOption result
        (view value.now ≢ object no_members) (λ _. view value.now ≡ object no_members) }
{
    let mut members = value.as_object()?.iter();
    if members.next().is_some() {
        return None;
    }
    Some(())
}
