ghost use Rattle.std.specs.Prelude.{◌≡◌, IfOk};

use bspl_types::{Name, NoMemory};
use std::alloc::Global;
use std::marker::Model;
use std::rc::Rc;

/// Where the bytes of a text lie.
#[derive(Drop)]
enum Place<'t> {
    /// In a text that is read.
    Lent(&'t [u8]),
    /// In memory of their own, which texts of the same bytes may share.
    Own(Rc<Name>),
}

/// The bytes of a name: a part of the text in which the name was read, or in memory of their own,
/// which its shares have in common. Contracts see the bytes.
#[derive(Drop)]
pub struct Text<'t> {
    place: Place<'t>,
}

impl<'t> Model for Text<'t> {
    ghost use Rattle.std.specs.Prelude.{List, ℕ};
    ghost use Rattle.bspl_parser.specs.inner.Place.{bytes_at};

    ghost Value = { List ℕ };

    ghost view = { λ t. bytes_at t.place };
}

impl<'t> Text<'t> {
    /// The bytes where they are.
    pub fn lent(bytes: &'t [u8]) -> Text<'t>
        ensures { result ≡ bytes.now }
    {
        Text {
            place: Place::Lent(bytes),
        }
    }

    /// The bytes of the name, in the name's memory.
    pub fn own(alloc: Global, name: Name) -> Result<Text<'t>, NoMemory>
        ensures { IfOk result (λ t. t ≡ name) }
    {
        Ok(Text {
            place: Place::Own(Rc::new(alloc, name)?),
        })
    }

    /// Another text of the same bytes, which takes no memory. An error tells that the bytes have
    /// as many texts as can be counted.
    pub fn share(&self) -> Result<Text<'t>, NoMemory>
        ensures { IfOk result (λ t. t ≡ self.now) }
    {
        Ok(Text {
            place: match &self.place {
                Place::Lent(bytes) => Place::Lent(bytes),
                Place::Own(name) => Place::Own(name.clone()?),
            },
        })
    }

    /// Lends the bytes.
    pub fn as_slice(&self) -> &[u8]
        ensures { result.now ≡ self.now }
    {
        match &self.place {
            Place::Lent(bytes) => bytes,
            Place::Own(name) => name.as_slice(),
        }
    }
}
