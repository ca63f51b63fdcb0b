ghost use Rattle.std.specs.Prelude.{◌≡◌, List, [], ◌∷◌, ◌++◌, map, is_some, IfOk, OnOk};
ghost use Rattle.std.specs.List.{filter, flat_map};
ghost use Rattle.bspl_parser.specs.declared.word.Word.{Word as SpecWord};
ghost use Rattle.protocol_names.specs.inner.DeclaredNames.{AreDeclared};
ghost use Rattle.protocol_names.specs.Names.{declared_word, protocol_words, texts};

use super::fault::{DocumentFault, FaultKind};
use super::fault_order::{earlier, fault_if};
use super::name_table::NameTable;
use bspl_parser::{Declaration, Formal, Item, Word};
use bspl_types::NoMemory;
use std::alloc::Global;

/// Names that are declared one after the other, and the first duplicate among them.
#[derive(Drop)]
pub(crate) struct DeclaredNames<'n> {
    /// The names, in order.
    pub names: NameTable<'n>,
    /// The first duplicate, if there is one.
    pub first: Option<DocumentFault>,
}

impl<'n> DeclaredNames<'n> {
    /// No names yet.
    fn new(alloc: Global) -> DeclaredNames<'n>
        ensures { AreDeclared [] result.names result.first }
    {
        DeclaredNames {
            names: NameTable::new(alloc),
            first: None,
        }
    }

    /// Notes a name that is declared after the others.
    fn add(&mut self, word: &'n Word<'n>) -> Result<(), NoMemory>
        ensures { (words : List SpecWord) → AreDeclared words self.old.names self.old.first →
            OnOk result (AreDeclared (words ++ word.now ∷ []) self.new.names self.new.first) }
    {
        let again = self.names.add(word.text.as_slice())?;
        let fault = fault_if(again, FaultKind::Duplicate, word.offset);
        self.first = earlier(self.first, fault);
        Ok(())
    }

    /// Notes the name that an item declares, if it declares one.
    fn add_declared(&mut self, item: &'n Item<'n>) -> Result<(), NoMemory>
        ensures { (words : List SpecWord) → AreDeclared words self.old.names self.old.first →
            OnOk result
            (AreDeclared (words ++ declared_word item.now) self.new.names self.new.first) }
    {
        match item {
            Item::Message(schema) => self.add(&schema.name),
            Item::Reference(_) => Ok(()),
        }
    }
}

/// Notes the names of roles.
pub(crate) fn named_roles<'n>(
    alloc: Global,
    roles: &'n [Word<'n>],
) -> Result<DeclaredNames<'n>, NoMemory>
    ensures { IfOk result (λ n. AreDeclared roles.now n.names n.first) }
{
    let mut declared = DeclaredNames::new(alloc);
    for role in roles {
        declared.add(role)?;
    }
    Ok(declared)
}

/// Notes the names of parameters, the public ones first.
pub(crate) fn named_params<'n>(
    alloc: Global,
    public: &'n [Formal<'n>],
    private: &'n [Word<'n>],
) -> Result<DeclaredNames<'n>, NoMemory>
    ensures { IfOk result (λ n.
        AreDeclared (map (λ f. f.name) public.now ++ private.now) n.names n.first) }
{
    let mut declared = DeclaredNames::new(alloc);
    for formal in public {
        declared.add(&formal.name)?;
    }
    for word in private {
        declared.add(word)?;
    }
    Ok(declared)
}

/// Notes the names of messages.
pub(crate) fn named_messages<'n>(
    alloc: Global,
    body: &'n [Item<'n>],
) -> Result<DeclaredNames<'n>, NoMemory>
    ensures { IfOk result (λ n. AreDeclared (flat_map declared_word body.now) n.names n.first) }
{
    let mut declared = DeclaredNames::new(alloc);
    for item in body {
        declared.add_declared(item)?;
    }
    Ok(declared)
}

/// Notes the names of protocols.
pub(crate) fn named_protocols<'n>(
    alloc: Global,
    protocols: &'n [Declaration<'n>],
) -> Result<DeclaredNames<'n>, NoMemory>
    ensures { IfOk result (λ n. AreDeclared (protocol_words protocols.now) n.names n.first) }
{
    let mut declared = DeclaredNames::new(alloc);
    for protocol in protocols {
        declared.add(&protocol.name)?;
    }
    Ok(declared)
}

/// The names of the parameters that are marked as keys.
pub(crate) fn key_names<'n>(
    alloc: Global,
    public: &'n [Formal<'n>],
) -> Result<NameTable<'n>, NoMemory>
    ensures { IfOk result (λ names. names ≡
        texts (map (λ f. f.name) (filter (λ f. is_some f.key) public.now))) }
{
    let mut names = NameTable::new(alloc);
    for formal in public {
        if formal.key.is_some() {
            names.push(formal.name.text.as_slice())?;
        }
    }
    Ok(names)
}
