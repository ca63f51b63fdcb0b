ghost use Rattle.std.specs.Prelude.{◌≡◌, ◌↔◌, ◌<◌, ◌-◌, false, slice_get, IsTrue, MatchOption, Some};
ghost use Rattle.protocol_paths.specs.inner.Links.{IsLinkBy};
ghost use Rattle.protocol_paths.specs.inner.ScopeOf.{SkipsName, protocols_of};

use super::context::Context;
use super::followed::Followed;
use super::link::Link;
use bspl_parser::Reference;
use protocol_names::names_find_protocols;

/// The context for what is at the end of one reference more.
pub(crate) fn shorter_context<'d, 'a>(context: &Context<'d, 'a>) -> Context<'d, 'a>
    requires { 0 < context.now.limit }
    ensures limit { result.limit ≡ context.now.limit - 1 }
    ensures protocols { protocols_of result ≡ protocols_of context.now }
{
    Context {
        alloc: context.alloc,
        table: context.table,
        names: context.names,
        followed: context.followed,
        limit: context.limit - 1,
    }
}

/// The link of the reference at the position, unless the protocol that it leads to is skipped.
pub(crate) fn followed_link<'d, 'a>(
    context: &Context<'d, 'a>,
    position: usize,
    reference: &'d Reference<'d>,
) -> Option<Link<'d, 'a>>
    requires counted { 0 < position }
    requires more { 0 < context.now.limit }
    ensures { MatchOption result
        (SkipsName context.now reference.now.protocol.text)
        (IsLinkBy (protocols_of context.now) position reference.now) }
{
    // law: the first protocol of a name is at the first index of the name
    names_find_protocols();
    let name = reference.protocol.text.as_slice();
    let number = context.table.names.index(name)?;
    if is_skipped(context.followed, number) {
        return None;
    }
    Some(Link {
        position,
        reference,
        target: &context.table.protocols[number],
        names: &context.names[number],
    })
}

/// Whether the protocol of the number leads neither to a message nor to a private parameter.
fn is_skipped(followed: &Followed, number: usize) -> bool
    ensures { IsTrue result ↔ (slice_get followed.now.messages.now number ≡ Some false)
        × (slice_get followed.now.privates.now number ≡ Some false) }
{
    followed.messages.get(number) == Some(&false) && followed.privates.get(number) == Some(&false)
}
