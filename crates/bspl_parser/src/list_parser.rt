ghost use Rattle.std.specs.Prelude.{◌≡◌, ◌<◌, ◌≤◌, false, List, Result, length, OnOk};
ghost use Rattle.bspl_parser.specs.declared.parse_error.ErrorPosition.{ErrorPosition as SpecErrorPosition};
ghost use Rattle.bspl_parser.specs.declared.token.Token.{Token as SpecToken};
ghost use Rattle.bspl_parser.specs.inner.ParseResult.{Gives, ReadsSome};
ghost use Rattle.bspl_parser.specs.inner.GrammarParsers.{has_more, with_prefix, parse_many};
ghost use Rattle.bspl_parser.specs.inner.GrammarParsers.{parse_list};

use super::list_kind::ListKind;
use super::parse_error::ParseError;
use super::token_stream::TokenStream;
use bspl_types::Seq;
use std::alloc::Global;

/// What a line of the grammar reads from tokens.
pub trait Parse<'t>: Drop {
    /// The reading of one, over lists of tokens.
    ghost at: { List SpecToken → Result (Self × List SpecToken) SpecErrorPosition };

    /// Reads one.
    fn read(alloc: Global, stream: &mut TokenStream<'t>) -> Result<Self, ParseError>
        ensures { ReadsSome result stream.old stream.new (at stream.old.tokens) };
}

/// Reads the further items of a list, and puts them after those that were read before.
pub fn read_more<'t, T: Parse<'t>>(
    alloc: Global,
    stream: &mut TokenStream<'t>,
    kind: ListKind,
    prefix: Seq<T>,
) -> Result<Seq<T>, ParseError>
    ensures gives { Gives result stream.new.tokens
        (with_prefix prefix (parse_many kind T.at stream.old.tokens)) }
    ensures same { stream.new.bad_byte ≡ stream.old.bad_byte }
    ensures no_longer { OnOk result (length stream.new.tokens ≤ length stream.old.tokens) }
    ensures ended { OnOk result (has_more kind stream.new.tokens ≡ false) }
{
    let mut items = prefix;
    'items: while stream.has_more(kind) {
        stream.separator(kind)?;
        let item = T::read(alloc, stream)?;
        items.push(item)?;
    }
    Ok(items)
}

/// Reads one item, and one more after each comma. Most lists have no more than two.
#[tactic(auto, unfolding(crate::specs::inner::GrammarParsers::parse_list))]
pub fn read_list<'t, T: Parse<'t>>(
    alloc: Global,
    stream: &mut TokenStream<'t>,
) -> Result<Seq<T>, ParseError>
    ensures { ReadsSome result stream.old stream.new (parse_list T.at stream.old.tokens) }
{
    let first = T::read(alloc, stream)?;
    let mut prefix = Seq::with_room(alloc, 2)?;
    prefix.push(first)?;
    read_more(alloc, stream, ListKind::Comma, prefix)
}
