ghost use Rattle.std.specs.Prelude.{◌≡◌, ◌++◌, ◌<◌, codes, length, OnOk};
ghost use Rattle.serde_json.specs.Written.{compact_text};
ghost use Rattle.bspl_types.specs.Expansion.{role_name};
ghost use Rattle.role_questions.specs.declared.question.Question.TheVariants.{Status};
ghost use Rattle.role_questions.specs.Answers.{status_members};
ghost use Rattle.role_questions.specs.inner.Written.{AddsAnswer, counts_text, names_text};

use super::value_text::push_number;
use bspl_types::Expanded;
use list_base::{Bytes, NoMemory};
use local_store::Store;
use wire_form::push_quoted;

/// The version of the lines.
const VERSION: u64 = 1;

/// Appends how far the role is, and which one it is.
pub(crate) fn push_status(text: &mut Bytes, store: &Store) -> Result<(), NoMemory>
    ensures { OnOk result (AddsAnswer store.now Status text.old text.new) }
{
    push_counts(text, store)?;
    push_names(text, store)
}

/// Appends the numbers of the status, and all before them.
fn push_counts(text: &mut Bytes, store: &Store) -> Result<(), NoMemory>
    ensures { OnOk result (text.new ≡ text.old ++ counts_text store.now) }
{
    text.append(b"{\"status\":{\"clock\":")?;
    push_number(text, store.clock())?;
    text.append(b",\"events\":")?;
    push_number(text, u64::from(store.len()))?;
    text.append(b",\"keys\":")?;
    push_number(text, u64::from(store.held()))
}

/// Appends the names of the status, and all after them.
fn push_names(text: &mut Bytes, store: &Store) -> Result<(), NoMemory>
    ensures { OnOk result (text.new ≡ text.old ++ names_text store.now) }
{
    let x = store.admitted().expanded();
    text.append(b",\"protocol\":")?;
    push_quoted(text, x.name.as_slice())?;
    text.append(b",\"role\":")?;
    push_quoted(text, role_name(x, store.role()))?;
    text.append(b",\"version\":")?;
    push_number(text, VERSION)?;
    text.append(b"}}")
}

/// The name of the role of that number, or none past the last.
pub(crate) fn role_name(x: &Expanded, role: u32) -> &[u8]
    ensures { result.now ≡ role_name x.now role }
{
    match x.roles.as_slice().get(role as usize) {
        Some(name) => name.as_slice(),
        None => &[],
    }
}
