ghost use Rattle.std.specs.Prelude.{◌≡◌, [], ◌∷◌, ◌++◌, map, IfOk, OnOk};
ghost use Rattle.std.specs.List.{AllZip};
ghost use Rattle.protocol_names.specs.Names.{texts};
ghost use Rattle.protocol_paths.specs.inner.AddsEach.{AddsEach};
ghost use Rattle.protocol_paths.specs.inner.Tables.{AreTablesOf};

use bspl_parser::{Declaration, Formal, Word};
use bspl_types::{NoMemory, Seq};
use protocol_names::NameTable;
use std::alloc::Global;

/// The names that one protocol declares, each found by an ordered map.
#[derive(Drop)]
pub(crate) struct NameTables<'d> {
    /// The roles.
    pub roles: NameTable<'d>,
    /// The public parameters, and the private ones after them.
    pub params: NameTable<'d>,
}

/// The tables of the protocols, in their order.
pub(crate) fn tables_of<'d>(
    alloc: Global,
    protocols: &'d [Declaration<'d>],
) -> Result<Seq<NameTables<'d>>, NoMemory>
    ensures { IfOk result (AllZip AreTablesOf protocols.now) }
{
    let mut tables = Seq::new(alloc);
    for protocol in protocols {
        add_tables(alloc, protocol, &mut tables)?;
    }
    Ok(tables)
}

/// Adds the tables of one protocol.
fn add_tables<'d>(
    alloc: Global,
    protocol: &'d Declaration<'d>,
    tables: &mut Seq<NameTables<'d>>,
) -> Result<(), NoMemory>
    ensures { OnOk result (AddsEach AreTablesOf (protocol.now ∷ []) tables.old tables.new) }
{
    tables.push(name_tables(alloc, protocol)?)
}

/// The tables of one protocol.
fn name_tables<'d>(alloc: Global, p: &'d Declaration<'d>) -> Result<NameTables<'d>, NoMemory>
    ensures { IfOk result (AreTablesOf p.now) }
{
    let roles = role_table(alloc, p.roles.as_slice())?;
    let params = param_table(alloc, p.public.as_slice(), p.private.as_slice())?;
    Ok(NameTables { roles, params })
}

/// A table of the roles' names, in order.
fn role_table<'d>(alloc: Global, roles: &'d [Word<'d>]) -> Result<NameTable<'d>, NoMemory>
    ensures { IfOk result (λ names. names ≡ texts roles.now) }
{
    let mut names = NameTable::new(alloc);
    add_words(&mut names, roles)?;
    Ok(names)
}

/// A table of the parameters' names, the public ones first.
fn param_table<'d>(
    alloc: Global,
    public: &'d [Formal<'d>],
    private: &'d [Word<'d>],
) -> Result<NameTable<'d>, NoMemory>
    ensures { IfOk result (λ names. names ≡ texts (map (λ f. f.name) public.now ++ private.now)) }
{
    let mut names = NameTable::new(alloc);
    add_formals(&mut names, public)?;
    add_words(&mut names, private)?;
    Ok(names)
}

/// Adds the texts of the words.
fn add_words<'d>(names: &mut NameTable<'d>, words: &'d [Word<'d>]) -> Result<(), NoMemory>
    ensures { OnOk result (names.new ≡ names.old ++ texts words.now) }
{
    for word in words {
        names.push(word.text.as_slice())?;
    }
    Ok(())
}

/// Adds the names of the parameters.
fn add_formals<'d>(names: &mut NameTable<'d>, formals: &'d [Formal<'d>]) -> Result<(), NoMemory>
    ensures { OnOk result (names.new ≡ names.old ++ texts (map (λ f. f.name) formals.now)) }
{
    for formal in formals {
        names.push(formal.name.text.as_slice())?;
    }
    Ok(())
}
