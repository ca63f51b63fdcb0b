ghost use Rattle.std.specs.Prelude.{◌≡◌, [], OnOk};
ghost use Rattle.bspl_parser.specs.inner.ParseResult.{Gives, Reads};
ghost use Rattle.bspl_parser.specs.inner.TokenParsers.{parse_word};
ghost use Rattle.bspl_parser.specs.inner.GrammarParsers.{parse_formal, parse_private};
ghost use Rattle.bspl_parser.specs.inner.GrammarParsers.{parse_declaration, parse_from_roles};
ghost use Rattle.bspl_parser.specs.inner.GrammarParsers.{parse_from_public, parse_from_body};
ghost use Rattle.bspl_parser.specs.inner.GrammarParsers.{parse_document};

use super::document::{Declaration, Document, Formal, FormalList};
use super::list_kind::ListKind;
use super::list_parser::{Parse, read_list, read_more};
use super::parse_error::ParseError;
use super::symbol::Symbol;
use super::token_stream::TokenStream;
use super::word::{Word, WordList};
use bspl_types::Seq;
use std::alloc::Global;

impl<'t> Parse<'t> for Word<'t> {
    ghost at = { parse_word };

    fn read(_alloc: Global, stream: &mut TokenStream<'t>) -> Result<Word<'t>, ParseError> {
        Ok(stream.word()?)
    }
}

impl<'t> Parse<'t> for Formal<'t> {
    ghost at = { parse_formal };

    #[tactic(auto, unfolding(crate::specs::inner::GrammarParsers::parse_formal))]
    fn read(_alloc: Global, stream: &mut TokenStream<'t>) -> Result<Formal<'t>, ParseError> {
        let (adorn, offset) = stream.adornment()?;
        let name = stream.word()?;
        let key = stream.key(adorn)?;
        Ok(Formal {
            adorn,
            offset,
            name,
            key,
        })
    }
}

/// Reads the private parameters, if there are any.
#[tactic(auto, unfolding(crate::specs::inner::GrammarParsers::parse_private))]
fn read_private<'t>(alloc: Global, stream: &mut TokenStream<'t>) -> Result<WordList<'t>, ParseError>
    ensures { Reads result stream.old stream.new (parse_private stream.old.tokens) }
{
    if stream.begins_with(Symbol::Private) {
        stream.symbol(Symbol::Private)?;
        return read_list(alloc, stream);
    }
    Ok(Seq::new(alloc))
}

impl<'t> Parse<'t> for Declaration<'t> {
    ghost at = { parse_declaration };

    #[tactic(auto, unfolding(crate::specs::inner::GrammarParsers::parse_declaration))]
    fn read(alloc: Global, stream: &mut TokenStream<'t>) -> Result<Declaration<'t>, ParseError> {
        let name = stream.word()?;
        stream.symbol(Symbol::OpenBrace)?;
        read_from_roles(alloc, stream, name)
    }
}

/// Reads a protocol after its `{`.
fn read_from_roles<'t>(
    alloc: Global,
    stream: &mut TokenStream<'t>,
    name: Word<'t>,
) -> Result<Declaration<'t>, ParseError>
    ensures { Reads result stream.old stream.new (parse_from_roles name.entry stream.old.tokens) }
{
    stream.either(Symbol::Roles, Symbol::Role)?;
    let roles = read_list(alloc, stream)?;
    read_from_public(alloc, stream, name, roles)
}

/// Reads a protocol after its roles.
fn read_from_public<'t>(
    alloc: Global,
    stream: &mut TokenStream<'t>,
    name: Word<'t>,
    roles: WordList<'t>,
) -> Result<Declaration<'t>, ParseError>
    ensures { Reads result stream.old stream.new
        (parse_from_public name.entry roles.entry stream.old.tokens) }
{
    stream.either(Symbol::Parameters, Symbol::Parameter)?;
    let public = read_list(alloc, stream)?;
    let private = read_private(alloc, stream)?;
    read_from_body(alloc, stream, name, roles, public, private)
}

/// Reads a protocol after its private parameters.
fn read_from_body<'t>(
    alloc: Global,
    stream: &mut TokenStream<'t>,
    name: Word<'t>,
    roles: WordList<'t>,
    public: FormalList<'t>,
    private: WordList<'t>,
) -> Result<Declaration<'t>, ParseError>
    ensures { Reads result stream.old stream.new
        (parse_from_body name.entry roles.entry public.entry private.entry stream.old.tokens) }
{
    let body = read_more(alloc, stream, ListKind::Name, Seq::new(alloc))?;
    stream.symbol(Symbol::CloseBrace)?;
    Ok(Declaration {
        name,
        roles,
        public,
        private,
        body,
    })
}

/// Reads protocols up to the end of the tokens.
#[tactic(auto, unfolding(crate::specs::inner::GrammarParsers::parse_document))]
pub fn read_document<'t>(
    alloc: Global,
    stream: &mut TokenStream<'t>,
) -> Result<Document<'t>, ParseError>
    ensures gives { Gives result stream.new.tokens (parse_document stream.old.tokens) }
    ensures same { stream.new.bad_byte ≡ stream.old.bad_byte }
    ensures all { OnOk result (stream.new.tokens ≡ []) }
{
    let first = Declaration::read(alloc, stream)?;
    let mut prefix = Seq::new(alloc);
    prefix.push(first)?;
    let protocols = read_more(alloc, stream, ListKind::Rest, prefix)?;
    Ok(Document { protocols })
}
