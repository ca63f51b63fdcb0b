ghost use Rattle.std.specs.Prelude.{◌≡◌, [], ◌∷◌, ◌++◌, IfOk};
ghost use Rattle.protocol_paths.specs.Scope.{after, start};
ghost use Rattle.protocol_paths.specs.inner.Links.{step_of};
ghost use Rattle.protocol_paths.specs.inner.OwnWords.{AreOwnWords};
ghost use Rattle.protocol_paths.specs.inner.ScopeOf.{scope_of};

use super::link::PathLink;
use super::scope::Scope;
use bspl_parser::Declaration;
use bspl_types::{NoMemory, Seq};
use std::alloc::Global;

/// The scope of the top protocol, in which each name stays as it is.
pub(crate) fn top_scope<'d, 'o>(top: &'d Declaration<'d>) -> Scope<'d, 'o>
    ensures { scope_of result ≡ start top.now }
{
    Scope {
        top,
        links: &[],
        protocol: top,
    }
}

/// The references of the scope's path, and one more.
pub(crate) fn next_links<'d, 'o>(
    alloc: Global,
    scope: &Scope<'d, 'o>,
    last: PathLink<'d, 'o>,
) -> Result<Seq<PathLink<'d, 'o>>, NoMemory>
    ensures { IfOk result (λ links. links ≡ scope.now.links.now ++ last.entry ∷ []) }
{
    let mut links = Seq::from_slice(alloc, scope.links)?;
    links.push(last)?;
    Ok(links)
}

/// The scope after one more reference, which is the last of these.
pub(crate) fn next_scope<'d, 'o>(
    scope: &Scope<'d, '_>,
    last: &PathLink<'d, '_>,
    links: &'o [PathLink<'d, 'o>],
) -> Scope<'d, 'o>
    requires last { links.now ≡ scope.now.links.now ++ last.now ∷ [] }
    requires own { AreOwnWords (after (scope_of scope.now) (step_of last.now.link))
        last.now.own.now }
    ensures { scope_of result ≡ after (scope_of scope.now) (step_of last.now.link) }
{
    Scope {
        top: scope.top,
        links,
        protocol: last.link.target,
    }
}
