ghost use Rattle.std.specs.Prelude.{◌<◌, ◌≤◌, length};
ghost use Rattle.protocol_paths.specs.Followed.{FollowsEnough};
ghost use Rattle.protocol_paths.specs.inner.Tables.{HaveTables};

use super::followed::Followed;
use super::name_tables::NameTables;
use protocol_names::ProtocolTable;
use std::alloc::Global;

/// What is the same for all paths, and how far they may still go.
#[derive(Clone, Copy)]
pub(crate) struct Context<'d, 'a> {
    /// Where memory comes from.
    pub alloc: Global,
    /// The protocols, by name.
    pub table: &'a ProtocolTable<'d>,
    /// The names that each protocol declares, or nothing where no reference is followed.
    pub names: &'a [NameTables<'d>],
    /// The protocols that are followed.
    pub followed: &'a Followed<'a>,
    /// The most references that a path may still have.
    pub limit: usize,
    pub ghost within: { limit ≤ length table.now.protocols.now },
    pub ghost enough: { FollowsEnough table.now.protocols.now followed.now },
    pub ghost tables: { 0 < limit → HaveTables table.now.protocols.now names.now },
}
