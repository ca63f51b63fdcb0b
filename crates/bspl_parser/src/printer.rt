ghost use Rattle.std.specs.Prelude.{◌≡◌, ◌++◌, OnOk, IfOk};
ghost use Rattle.bspl_parser.specs.Alike.{ReadsBack};
ghost use Rattle.bspl_parser.specs.Grammar.{symbol_of};
ghost use Rattle.bspl_parser.specs.Layout.{printed_word, printed_key, printed_formal};
ghost use Rattle.bspl_parser.specs.Layout.{printed_message, printed_reference, item_line};
ghost use Rattle.bspl_parser.specs.Layout.{private_line, printed_declaration, printed};
ghost use Rattle.bspl_parser.specs.Spelling.{IsDocument};

use super::document::{Adorn, Declaration, Document, Formal, Item, Reference, Schema};
use super::layout::{Print, add_each, add_joined, add_line, add_list_line};
use super::symbol::Symbol;
use super::word::Word;
use bspl_types::{Bytes, NoMemory};
use std::alloc::Global;

/// The text of a document in its one layout: indented by two spaces a line for the roles, one for
/// the public and one for the private parameters and one for each item, and between two protocols
/// an empty line.
pub fn print(alloc: Global, document: &Document) -> Result<Bytes, NoMemory>
    requires formed { IsDocument document.now }
    ensures layout { IfOk result (λ text. text ≡ printed document.now) }
    ensures read_back { IfOk result (λ text. ReadsBack text document.now) }
{
    let mut text = Bytes::new(alloc);
    add_joined(&mut text, b"\n", document.protocols.as_slice())?;
    Ok(text)
}

impl<'t> Print for Declaration<'t> {
    ghost printed = { printed_declaration };

    #[tactic(auto, unfolding(crate::specs::Layout::printed_declaration))]
    fn add_to(&self, text: &mut Bytes) -> Result<(), NoMemory> {
        self.name.add_to(text)?;
        text.append(b" {\n")?;
        add_list_line(text, b"roles ", self.roles.as_slice())?;
        add_list_line(text, b"parameters ", self.public.as_slice())?;
        add_private(text, self.private.as_slice())?;
        add_each(text, b"", self.body.as_slice())?;
        text.append(b"}\n")
    }
}

/// Adds the line of the private parameters, if there are any.
fn add_private(text: &mut Bytes, words: &[Word]) -> Result<(), NoMemory>
    ensures { OnOk result (text.new ≡ text.old ++ private_line words.now) }
{
    if words.is_empty() {
        return Ok(());
    }
    add_list_line(text, b"private ", words)
}

impl<'t> Print for Item<'t> {
    ghost printed = { item_line };

    fn add_to(&self, text: &mut Bytes) -> Result<(), NoMemory> {
        match self {
            Item::Message(message) => add_line(text, message),
            Item::Reference(reference) => add_line(text, reference),
        }
    }
}

impl<'t> Print for Schema<'t> {
    ghost printed = { printed_message };

    fn add_to(&self, text: &mut Bytes) -> Result<(), NoMemory> {
        self.sender.add_to(text)?;
        text.append(b" -> ")?;
        self.receiver.add_to(text)?;
        text.append(b": ")?;
        self.name.add_to(text)?;
        text.push(b'[')?;
        add_joined(text, b", ", self.params.as_slice())?;
        text.push(b']')
    }
}

impl<'t> Print for Reference<'t> {
    ghost printed = { printed_reference };

    fn add_to(&self, text: &mut Bytes) -> Result<(), NoMemory> {
        self.protocol.add_to(text)?;
        text.push(b'(')?;
        add_joined(text, b", ", self.roles.as_slice())?;
        add_each(text, b", ", self.params.as_slice())?;
        text.push(b')')
    }
}

impl<'t> Print for Formal<'t> {
    ghost printed = { printed_formal };

    fn add_to(&self, text: &mut Bytes) -> Result<(), NoMemory> {
        text.append(symbol_of(self.adorn).spelling())?;
        text.push(b' ')?;
        self.name.add_to(text)?;
        add_key(text, self.key)
    }
}

/// The reserved word of an adornment.
fn symbol_of(adorn: Adorn) -> Symbol
    ensures { result ≡ symbol_of adorn }
{
    match adorn {
        Adorn::In => Symbol::In,
        Adorn::Out => Symbol::Out,
        Adorn::Nil => Symbol::Nil,
        Adorn::Any => Symbol::Any,
        Adorn::Opt => Symbol::Opt,
    }
}

/// Adds the word `key`, if it is there.
fn add_key(text: &mut Bytes, key: Option<u64>) -> Result<(), NoMemory>
    ensures { OnOk result (text.new ≡ text.old ++ printed_key key) }
{
    match key {
        Some(_) => text.append(b" key"),
        None => Ok(()),
    }
}

impl<'t> Print for Word<'t> {
    ghost printed = { printed_word };

    fn add_to(&self, text: &mut Bytes) -> Result<(), NoMemory> {
        text.append(self.text.as_slice())
    }
}
