ghost use Rattle.std.specs.Prelude.{◌≡◌, ◌++◌, ℕ, length, List, OnOk};
ghost use Rattle.role_questions.specs.declared.question.Question.TheVariants.{Enabled};
ghost use Rattle.role_questions.specs.declared.question.Question.TheVariants.{Known as AskKnown};
ghost use Rattle.role_questions.specs.Answers.{IsAnswerText};
ghost use Rattle.role_questions.specs.Meaning.{HasWholeKey};
ghost use Rattle.role_questions.specs.inner.Written.{AddsAnswer};

use super::event_text::push_history;
use super::form_list::forms;
use super::form_text::push_forms;
use super::key_text::push_keys;
use super::knowledge::known;
use super::question::Question;
use super::status_text::push_status;
use super::value_text::push_known_values;
use bspl_types::Key;
use list_base::{Bytes, NoMemory};
use local_store::Store;
use std::alloc::Global;

/// Appends the line that answers the question. A key that is not held is answered as one without
/// events.
pub fn push_answer(
    alloc: Global,
    text: &mut Bytes,
    store: &Store,
    question: &Question,
) -> Result<(), NoMemory>
    requires { HasWholeKey store.now.protocol question.now }
    ensures { OnOk result ((appended : List ℕ) × (text.new ≡ text.old ++ appended) ×
        IsAnswerText store.now question.now appended) }
{
    push_json(alloc, text, store, question)?;
    text.push(b'\n')
}

/// Appends the answer, but for its LF.
fn push_json(
    alloc: Global,
    text: &mut Bytes,
    store: &Store,
    question: &Question,
) -> Result<(), NoMemory>
    requires { HasWholeKey store.now.protocol question.now }
    ensures { OnOk result (AddsAnswer store.now question.now text.old text.new) }
{
    match question {
        Question::Enabled { key } => push_enabled(alloc, text, store, key),
        Question::Known { key } => push_known(alloc, text, store, key),
        Question::Keys { from, most } => push_keys(alloc, text, store, *from, *most),
        Question::History { from, most } => push_history(alloc, text, store, *from, *most),
        Question::Status => push_status(text, store),
    }
}

/// Appends what the role may send now under the key.
fn push_enabled(alloc: Global, text: &mut Bytes, store: &Store, key: &Key) -> Result<(), NoMemory>
    requires { length key.now ≡ length store.now.protocol.keys }
    ensures { OnOk result (AddsAnswer store.now (Enabled key.now) text.old text.new) }
{
    let forms = forms(alloc, store, key)?;
    let x = store.admitted().expanded();
    text.append(b"{\"enabled\":[")?;
    push_forms(alloc, text, x, key, forms.as_slice())?;
    text.push(b'}')
}

/// Appends what the role knows under the key.
fn push_known(alloc: Global, text: &mut Bytes, store: &Store, key: &Key) -> Result<(), NoMemory>
    ensures { OnOk result (AddsAnswer store.now (AskKnown key.now) text.old text.new) }
{
    let list = known(alloc, store, key)?;
    let x = store.admitted().expanded();
    text.append(b"{\"known\":")?;
    push_known_values(alloc, text, x, list.as_slice())?;
    text.push(b'}')
}
