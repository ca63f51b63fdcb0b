ghost use Rattle.std.specs.Prelude.{◌<◌};
ghost use Rattle.protocol_paths.specs.inner.Tables.{AreTablesOf};

use super::name_tables::NameTables;
use bspl_parser::{Declaration, Reference, Word};

/// A reference of a body, and where it leads.
#[derive(Clone, Copy)]
pub(crate) struct Link<'d, 'a> {
    /// Its position in the body, counted from 1.
    pub position: usize,
    /// What it gives.
    pub reference: &'d Reference<'d>,
    /// The protocol that it leads to.
    pub target: &'d Declaration<'d>,
    /// The names that this protocol declares.
    pub names: &'a NameTables<'d>,
    pub ghost counted: { 0 < position },
    pub ghost declared: { AreTablesOf target.now names.now },
}

/// One reference of a path.
#[derive(Clone, Copy)]
pub(crate) struct PathLink<'d, 'o> {
    /// The reference, and where it leads.
    pub link: Link<'d, 'o>,
    /// The private parameters of the protocol there, under the prefix of the path up to it. They
    /// are made once for the link, and what uses them shares their texts.
    pub own: &'o [Word<'d>],
}
