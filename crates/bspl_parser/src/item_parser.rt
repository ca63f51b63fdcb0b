ghost use Rattle.std.specs.Prelude.{[], ◌∷◌};
ghost use Rattle.bspl_parser.specs.declared.list_kind.ListKind.TheVariants.{CommaName};
ghost use Rattle.bspl_parser.specs.inner.ParseResult.{Reads};
ghost use Rattle.bspl_parser.specs.inner.TokenParsers.{parse_word};
ghost use Rattle.bspl_parser.specs.inner.GrammarParsers.{parse_message, parse_bracketed};
ghost use Rattle.bspl_parser.specs.inner.GrammarParsers.{parse_reference};
ghost use Rattle.bspl_parser.specs.inner.GrammarParsers.{parse_from_given, parse_item};
ghost use Rattle.bspl_parser.specs.inner.GrammarParsers.{parse_many, with_prefix};

use super::document::{FormalList, Item, Reference, Schema};
use super::list_kind::ListKind;
use super::list_parser::{Parse, read_list, read_more};
use super::parse_error::ParseError;
use super::symbol::Symbol;
use super::token_stream::TokenStream;
use super::word::{Word, WordList};
use bspl_types::Seq;
use std::alloc::Global;

/// Reads a message after its sender.
#[tactic(auto, using(crate::proofs::MessageParts::message_parts))]
fn read_message<'t>(
    alloc: Global,
    stream: &mut TokenStream<'t>,
    sender: Word<'t>,
) -> Result<Schema<'t>, ParseError>
    ensures { Reads result stream.old stream.new (parse_message sender.entry stream.old.tokens) }
{
    let receiver = stream.word_after(Symbol::Arrow)?;
    let name = stream.word_after(Symbol::Colon)?;
    let params = read_bracketed(alloc, stream)?;
    Ok(Schema {
        sender,
        receiver,
        name,
        params,
    })
}

/// Reads parameters in brackets.
#[tactic(auto, unfolding(crate::specs::inner::GrammarParsers::parse_bracketed))]
fn read_bracketed<'t>(
    alloc: Global,
    stream: &mut TokenStream<'t>,
) -> Result<FormalList<'t>, ParseError>
    ensures { Reads result stream.old stream.new (parse_bracketed stream.old.tokens) }
{
    stream.symbol(Symbol::OpenBracket)?;
    let params = read_list(alloc, stream)?;
    stream.symbol(Symbol::CloseBracket)?;
    Ok(params)
}

/// Reads a reference after its protocol's name.
#[tactic(auto, unfolding(crate::specs::inner::GrammarParsers::parse_reference))]
fn read_reference<'t>(
    alloc: Global,
    stream: &mut TokenStream<'t>,
    protocol: Word<'t>,
) -> Result<Reference<'t>, ParseError>
    ensures { Reads result stream.old stream.new
        (parse_reference protocol.entry stream.old.tokens) }
{
    stream.symbol(Symbol::OpenParen)?;
    let first = stream.word()?;
    let roles = read_names(alloc, stream, first)?;
    read_from_given(alloc, stream, protocol, roles)
}

/// Reads the names after the first, and puts them after it.
fn read_names<'t>(
    alloc: Global,
    stream: &mut TokenStream<'t>,
    first: Word<'t>,
) -> Result<WordList<'t>, ParseError>
    ensures { Reads result stream.old stream.new
        (with_prefix (first.entry ∷ []) (parse_many CommaName parse_word stream.old.tokens)) }
{
    let mut prefix = Seq::new(alloc);
    prefix.push(first)?;
    read_more(alloc, stream, ListKind::CommaName, prefix)
}

/// Reads a reference after its roles.
fn read_from_given<'t>(
    alloc: Global,
    stream: &mut TokenStream<'t>,
    protocol: Word<'t>,
    roles: WordList<'t>,
) -> Result<Reference<'t>, ParseError>
    ensures { Reads result stream.old stream.new
        (parse_from_given protocol.entry roles.entry stream.old.tokens) }
{
    let params = read_more(alloc, stream, ListKind::Comma, Seq::new(alloc))?;
    stream.symbol(Symbol::CloseParen)?;
    Ok(Reference {
        protocol,
        roles,
        params,
    })
}

impl<'t> Parse<'t> for Item<'t> {
    ghost at = { parse_item };

    #[tactic(auto, unfolding(crate::specs::inner::GrammarParsers::parse_item))]
    fn read(alloc: Global, stream: &mut TokenStream<'t>) -> Result<Item<'t>, ParseError> {
        let name = stream.word()?;
        if stream.begins_with(Symbol::OpenParen) {
            let reference = read_reference(alloc, stream, name)?;
            return Ok(Item::Reference(reference));
        }
        let message = read_message(alloc, stream, name)?;
        Ok(Item::Message(message))
    }
}
