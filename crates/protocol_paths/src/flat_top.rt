ghost use Rattle.std.specs.Prelude.{◌<◌, IfOk};
ghost use Rattle.protocol_paths.specs.FlatProtocol.{as_declaration};
ghost use Rattle.protocol_paths.specs.Flat.{IsFlat, IsFlatTo};
ghost use Rattle.protocol_paths.specs.Followed.{FollowsEnough};
ghost use Rattle.protocol_paths.specs.ReferencePath.{IsWithinDepth};
ghost use Rattle.protocol_paths.specs.inner.ScopeOf.{protocols_of};
ghost use Rattle.protocol_paths.specs.inner.Tables.{HaveTables};

use super::context::Context;
use super::copies::{copied_formals, copied_word, copied_words};
use super::ends::ends_of;
use super::flat_protocol::FlatProtocol;
use super::followed::Followed;
use super::name_tables::{NameTables, tables_of};
use bspl_parser::Declaration;
use bspl_types::{NoMemory, Seq};
use protocol_names::ProtocolTable;
use std::alloc::Global;

/// The top protocol with each reference replaced by what it leads to. No path from it has more
/// than `depth` references, so the recursion is no deeper.
pub fn flatten<'d, 's>(
    alloc: Global,
    table: &'s ProtocolTable<'d>,
    top: &'d Declaration<'d>,
    depth: usize,
    followed: &'s Followed<'s>,
) -> Result<FlatProtocol<'d>, NoMemory>
    requires followed { FollowsEnough table.now.protocols.now followed.now }
    requires within_depth { IsWithinDepth table.now.protocols.now top.now depth }
    ensures { IfOk result (λ p. IsFlat table.now.protocols.now top.now (as_declaration p)) }
{
    let limit = depth.min(table.protocols.len());
    let names = tables_for(alloc, limit, table.protocols)?;
    // both are lent again, for as long as the names live
    let context = Context {
        alloc,
        table: &*table,
        names: names.as_slice(),
        followed: &*followed,
        limit,
    };
    flat_to(&context, top)
}

/// The tables of the protocols, or none if no reference is followed.
fn tables_for<'d>(
    alloc: Global,
    limit: usize,
    protocols: &'d [Declaration<'d>],
) -> Result<Seq<NameTables<'d>>, NoMemory>
    ensures { IfOk result (λ tables. 0 < limit → HaveTables protocols.now tables) }
{
    if limit == 0 {
        return Ok(Seq::new(alloc));
    }
    tables_of(alloc, protocols)
}

/// The top protocol with what is at the ends of the paths that the context bounds.
fn flat_to<'d>(
    context: &Context<'d, '_>,
    top: &'d Declaration<'d>,
) -> Result<FlatProtocol<'d>, NoMemory>
    ensures { IfOk result (λ p.
        IsFlatTo context.now.limit (protocols_of context.now) top.now (as_declaration p)) }
{
    let roles = copied_words(context.alloc, top.roles.as_slice())?;
    let public = copied_formals(context.alloc, top.public.as_slice())?;
    let ends = ends_of(context, top)?;
    Ok(FlatProtocol {
        name: copied_word(&top.name),
        roles,
        public,
        private: ends.private,
        messages: ends.messages,
    })
}
