ghost use Rattle.std.specs.Prelude.{◌≡◌, ◌++◌, map, IfOk};
ghost use Rattle.protocol_paths.specs.Flat.{entry};
ghost use Rattle.protocol_paths.specs.Scope.{after};
ghost use Rattle.protocol_paths.specs.inner.Links.{step_of};
ghost use Rattle.protocol_paths.specs.inner.OwnWords.{AreOwnWords};
ghost use Rattle.protocol_paths.specs.inner.ScopeOf.{scope_of};

use super::link::Link;
use super::prefix::{Prefix, next_prefix};
use super::scope::Scope;
use bspl_parser::{Word, WordList};
use bspl_types::{NoMemory, Seq};
use std::alloc::Global;

/// The private parameters of the protocol that the link leads to, under the prefix of the scope
/// after it. Where there are none, no prefix is made.
pub(crate) fn link_words<'d>(
    alloc: Global,
    scope: &Scope<'d, '_>,
    link: &Link<'d, '_>,
) -> Result<WordList<'d>, NoMemory>
    ensures { IfOk result (AreOwnWords (after (scope_of scope.now) (step_of link.now))) }
{
    let private = link.target.private.as_slice();
    if private.is_empty() {
        return Ok(Seq::new(alloc));
    }
    let prefix = next_prefix(alloc, scope, link)?;
    prefixed_words(alloc, &prefix, private)
}

/// The words with the prefix.
fn prefixed_words<'d>(
    alloc: Global,
    prefix: &Prefix,
    words: &'d [Word<'d>],
) -> Result<WordList<'d>, NoMemory>
    ensures { IfOk result (λ list.
        map entry list ≡ map (λ w. (prefix.now.text ++ w.text, w.offset)) words.now) }
{
    let mut list = Seq::new(alloc);
    for word in words {
        list.push(prefix.word(alloc, word)?)?;
    }
    Ok(list)
}

/// The private parameters of the scope's protocol, under its prefix: those of the last link, or of
/// the top protocol as they are.
pub(crate) fn scope_words<'d, 'o>(scope: &Scope<'d, 'o>) -> &'o [Word<'d>]
    ensures { AreOwnWords (scope_of scope.now) result.now }
{
    let Some((last, _)) = scope.links.split_last() else {
        return scope.top.private.as_slice();
    };
    last.own
}
