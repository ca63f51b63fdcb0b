ghost use Rattle.std.specs.Prelude.{◌≡◌, [], ◌∷◌, ◌++◌, IfOk, OnOk};
ghost use Rattle.question_text.specs.inner.Spaced.{after_spaces, excused_words};
ghost use Rattle.question_text.specs.QuestionText.{tree_spelling};
ghost use Rattle.question_text.specs.Tree.{words_of_said, words_of_tree};

use super::tree::{Said, Tree};
use bspl_types::Name;
use list_base::{Bytes, NoMemory, Seq};
use std::alloc::Global;

/// The spelling of the question: its words, with one space between each two.
pub fn write_spelling(alloc: Global, tree: &Tree) -> Result<Bytes, NoMemory>
    ensures { IfOk result (λ text. text ≡ tree_spelling tree.now) }
{
    let mut spaced = Seq::new(alloc);
    push_tree(&mut spaced, tree)?;
    match spaced.as_slice() {
        [] => Ok(Seq::new(alloc)),
        [_space, spelling @ ..] => Seq::from_slice(alloc, spelling),
    }
}

/// Appends the words of the question, each after a space.
fn push_tree(text: &mut Bytes, tree: &Tree) -> Result<(), NoMemory>
    ensures { OnOk result (text.new ≡ text.old ++ after_spaces (words_of_tree tree.now)) }
{
    match tree {
        Tree::Happened(said) => push_said(text, said),
        Tree::Before(one, other) => push_linked(text, one, b"before", other),
        Tree::After(one, other) => push_linked(text, one, b"after", other),
        Tree::Can(message) => {
            push_word(text, b"can")?;
            push_word(text, message.as_slice())
        }
        Tree::Rest(excused) => {
            push_word(text, b"rest")?;
            push_excused(text, excused.as_slice())
        }
        Tree::Not(q) => {
            push_word(text, b"not")?;
            push_tree(text, q)
        }
        Tree::And(q, r) => {
            push_tree(text, q)?;
            push_word(text, b"and")?;
            push_tree(text, r)
        }
        Tree::Or(q, r) => {
            push_tree(text, q)?;
            push_word(text, b"or")?;
            push_tree(text, r)
        }
        Tree::Bracketed(q) => {
            push_word(text, b"(")?;
            push_tree(text, q)?;
            push_word(text, b")")
        }
    }
}

/// Appends two happenings and the word that joins them.
fn push_linked(text: &mut Bytes, one: &Said, word: &[u8], other: &Said) -> Result<(), NoMemory>
    ensures { OnOk result (text.new ≡ text.old
        ++ after_spaces (words_of_said one.now ++ word.now ∷ words_of_said other.now)) }
{
    push_said(text, one)?;
    push_word(text, word)?;
    push_said(text, other)
}

/// Appends the words of the happening.
fn push_said(text: &mut Bytes, said: &Said) -> Result<(), NoMemory>
    ensures { OnOk result (text.new ≡ text.old ++ after_spaces (words_of_said said.now)) }
{
    match said {
        Said::Sent(message) => push_named(text, b"sent", message),
        Said::Received(message) => push_named(text, b"received", message),
        Said::Knows { role, param } => {
            push_word(text, b"knows")?;
            push_word(text, role.as_slice())?;
            push_word(text, param.as_slice())
        }
        Said::Bound(param) => push_named(text, b"bound", param),
    }
}

/// Appends the word and the name.
fn push_named(text: &mut Bytes, word: &[u8], name: &Name) -> Result<(), NoMemory>
    ensures { OnOk result (text.new ≡ text.old ++ after_spaces (word.now ∷ name.now ∷ [])) }
{
    push_word(text, word)?;
    push_word(text, name.as_slice())
}

/// Appends the excused messages.
fn push_excused(text: &mut Bytes, excused: &[Name]) -> Result<(), NoMemory>
    ensures { OnOk result (text.new ≡ text.old ++ after_spaces (excused_words excused.now)) }
{
    for message in excused {
        push_named(text, b"but", message)?;
    }
    Ok(())
}

/// Appends a space and the word.
fn push_word(text: &mut Bytes, word: &[u8]) -> Result<(), NoMemory>
    ensures { OnOk result (text.new ≡ text.old ++ after_spaces (word.now ∷ [])) }
{
    text.push(b' ')?;
    text.append(word)
}
