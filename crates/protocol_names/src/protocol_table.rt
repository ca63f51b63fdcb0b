ghost use Rattle.std.specs.Prelude.{◌≡◌, IfOk, option_copied};
ghost use Rattle.protocol_names.specs.Names.{protocol_of, protocol_words, texts};

use super::declared_names::named_protocols;
use super::name_table::NameTable;
use bspl_parser::Declaration;
use bspl_types::NoMemory;
use std::alloc::Global;

/// The protocols of a document, found by their names.
#[derive(Drop)]
pub struct ProtocolTable<'a> {
    /// The protocols, in the order of the document.
    pub protocols: &'a [Declaration<'a>],
    /// Their names, in the same order.
    pub names: NameTable<'a>,
    pub ghost in_order: { names ≡ texts (protocol_words protocols.now) },
}

impl<'a> ProtocolTable<'a> {
    /// A table of the protocols.
    pub fn new(
        alloc: Global,
        protocols: &'a [Declaration<'a>],
    ) -> Result<ProtocolTable<'a>, NoMemory>
        ensures { IfOk result (λ d. d.protocols.now ≡ protocols.now) }
    {
        let declared = named_protocols(alloc, protocols)?;
        Ok(ProtocolTable {
            protocols,
            names: declared.names,
        })
    }

    /// The first protocol of the name.
    pub fn protocol(&self, name: &[u8]) -> Option<&'a Declaration<'a>>
        ensures { option_copied result ≡ protocol_of self.now.protocols.now name.now }
    {
        let index = self.names.index(name)?;
        self.protocols.get(index)
    }
}
