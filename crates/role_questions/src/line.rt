ghost use Rattle.std.specs.Prelude.{◌≡◌, ◌++◌, ◌∷◌, [], ◌≤◌, IfOk, IsUtf8, MatchOption, Some};
ghost use Rattle.std.specs.Prelude.{length, List};
ghost use Rattle.serde_json.specs.Read.{read};
ghost use Rattle.serde_json.specs.View.{view};
ghost use Rattle.bspl_types.specs.declared.value.Value.{Value as SpecValue};
ghost use Rattle.wire_form.specs.Request.{line_limit};
ghost use Rattle.wire_form.specs.Texts.{texts_in};
ghost use Rattle.role_questions.specs.declared.question.Question.{Question as SpecQuestion};
ghost use Rattle.role_questions.specs.Meaning.{IsQuestionReading};
ghost use Rattle.role_questions.specs.inner.Found.{IsKeyOf, IsMeantBy, question_in};

use super::found::{Found, found_in};
use super::question::{Question, QuestionReading};
use bspl_types::{Admitted, Key};
use list_base::NoMemory;
use serde_json::Value;
use std::alloc::Global;
use wire_form::{spelled_values, texts_of};

/// The most bytes of a line before its LF.
const LINE_LIMIT: usize = 65_536;

/// What the line with this body, and an LF after it, asks. A request to receive or to emit puts no
/// question.
pub fn read_question(alloc: Global, a: &Admitted, body: &[u8]) -> Result<QuestionReading, NoMemory>
    ensures { IfOk result (IsQuestionReading a.now (body.now ++ 10 ∷ [])) }
{
    if body.len() > LINE_LIMIT {
        return Ok(QuestionReading::NotRead);
    }
    match Value::from_slice(alloc, body) {
        Ok(value) => read_value(alloc, a, body, &value),
        Err(error) if error.is_memory() => Err(NoMemory),
        Err(_) => Ok(QuestionReading::NotRead),
    }
}

/// What the line asks whose body is read as the value.
fn read_value(
    alloc: Global,
    a: &Admitted,
    body: &[u8],
    value: &Value,
) -> Result<QuestionReading, NoMemory>
    requires short { length body.now ≤ line_limit }
    requires utf8 { IsUtf8 body.now }
    requires reads { read body.now ≡ Some (view value.now) }
    ensures { IfOk result (IsQuestionReading a.now (body.now ++ 10 ∷ [])) }
{
    let Some(found) = found_in(value) else {
        return Ok(QuestionReading::NotRead);
    };
    match question_of(alloc, a, &found)? {
        None => Ok(QuestionReading::NotMeant),
        Some(question) => Ok(QuestionReading::Meant(question)),
    }
}

/// What was found, as a question, if the protocol has its key.
fn question_of(alloc: Global, a: &Admitted, found: &Found<'_>) -> Result<Option<Question>, NoMemory>
    ensures { IfOk result (λ meant. MatchOption meant
        ((q : SpecQuestion) → ¬ IsMeantBy a.now (question_in found.now) q)
        (IsMeantBy a.now (question_in found.now))) }
{
    match found {
        Found::Enabled(items) => match key_of(alloc, a, items.as_slice())? {
            None => Ok(None),
            Some(key) => Ok(Some(Question::Enabled { key })),
        },
        Found::Known(items) => match key_of(alloc, a, items.as_slice())? {
            None => Ok(None),
            Some(key) => Ok(Some(Question::Known { key })),
        },
        Found::Keys { from, most } => Ok(Some(Question::Keys {
            from: *from,
            most: *most,
        })),
        Found::History { from, most } => Ok(Some(Question::History {
            from: *from,
            most: *most,
        })),
        Found::Status => Ok(Some(Question::Status)),
    }
}

/// The key that the strings spell, with a value for each of the protocol's keys.
fn key_of(alloc: Global, a: &Admitted, items: &[Value]) -> Result<Option<Key>, NoMemory>
    ensures { IfOk result (λ key. MatchOption key
        ((values : List SpecValue) → ¬ IsKeyOf a.now (texts_in items.now) values)
        (IsKeyOf a.now (texts_in items.now))) }
{
    if items.len() != a.expanded().keys.len() {
        return Ok(None);
    }
    let texts = texts_of(alloc, items)?;
    match spelled_values(texts.as_slice()) {
        None => Ok(None),
        Some(values) => Ok(Some(Key::of(values.as_slice()))),
    }
}
