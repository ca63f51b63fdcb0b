use super::name_table::NameTable;

/// The names that one protocol declares.
#[derive(Drop)]
pub struct Names<'n> {
    /// The roles.
    pub roles: NameTable<'n>,
    /// The public parameters, and the private ones after them.
    pub params: NameTable<'n>,
    /// The public parameters that are marked as keys.
    pub keys: NameTable<'n>,
}
