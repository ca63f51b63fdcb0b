ghost use Rattle.std.specs.Prelude.{IfOk, IfErr};
ghost use Rattle.protocol_paths.specs.FlatProtocol.{as_declaration};
ghost use Rattle.protocol_expand.specs.FlatExpansion.{IsExpansionOf};
ghost use Rattle.protocol_expand.specs.WellScoped.{IsWellScoped};
ghost use Rattle.protocol_expand.specs.Repeats.{AreNamesDistinct};
ghost use Rattle.bspl_parser.specs.declared.document.Declaration.{Declaration as SpecDeclaration};
ghost use Rattle.protocol_paths.specs.Flat.{IsFlat};
ghost use Rattle.protocol_paths.specs.ReferencePath.{IsWithinDepth};
ghost use Rattle.protocol_paths.specs.Followed.{FollowsEnough};
ghost use Rattle.protocol_expand.specs.inner.Flat.{ExpandsFlat, RefusesFlat, RefusesTop};

use super::flat_expansion::expansion_of_well_scoped;
use super::repeats::repeated_name;
use bspl_parser::Declaration;
use bspl_types::{Expanded, Refusal};
use protocol_names::ProtocolTable;
use protocol_paths::{FlatProtocol, Followed, flatten};
use std::alloc::Global;

/// The expansion of the top protocol, unless two names of what it stands for are equal. No path
/// from it has more than `depth` references.
pub fn expand_top<'d, 's>(
    alloc: Global,
    table: &'s ProtocolTable<'d>,
    top: &'d Declaration<'d>,
    depth: usize,
    followed: &'s Followed<'s>,
) -> Result<Expanded, Refusal>
    requires followed { FollowsEnough table.now.protocols.now followed.now }
    requires within_depth { IsWithinDepth table.now.protocols.now top.now depth }
    requires ready { (flat : SpecDeclaration) → IsFlat table.now.protocols.now top.now flat →
        AreNamesDistinct flat → IsWellScoped flat }
    ensures ok { IfOk result (ExpandsFlat table.now.protocols.now top.now) }
    ensures refused { IfErr result (RefusesTop table.now.protocols.now top.now) }
{
    let flat = flatten(alloc, table, top, depth, followed)?;
    expand_flat(alloc, &flat)
}

/// The expansion of a flat protocol, unless two of its names are equal.
fn expand_flat(alloc: Global, flat: &FlatProtocol) -> Result<Expanded, Refusal>
    requires { AreNamesDistinct (as_declaration flat.now) →
        IsWellScoped (as_declaration flat.now) }
    ensures ok { IfOk result (IsExpansionOf (as_declaration flat.now)) }
    ensures refused { IfErr result (RefusesFlat (as_declaration flat.now)) }
{
    if let Some(offset) = repeated_name(alloc, flat)? {
        return Err(Refusal::Duplicate { offset });
    }
    Ok(expansion_of_well_scoped(alloc, flat)?)
}
