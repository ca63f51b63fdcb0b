ghost use Rattle.std.specs.Prelude.{◌≡◌, ◌↔◌, ◌++◌, [], IfOk, IsTrue, OnOk};
ghost use Rattle.live_role.specs.Wire.{IsWireLine};
ghost use Rattle.live_role.specs.inner.Opening.{TakesPiece};

use super::same::are_same;
use list_base::{Bytes, NoMemory};
use std::alloc::Global;
use text_lines::split_once;

/// What came before the line `%% wire`.
#[derive(Drop)]
pub struct Opening {
    /// The lines that are whole.
    pub text: Bytes,
    /// The line that is begun.
    pub begun: Bytes,
}

impl Opening {
    /// An opening before the first byte.
    pub fn new(alloc: Global) -> Opening
        ensures { result ≡ record { text = []; begun = [] } }
    {
        Opening {
            text: Bytes::new(alloc),
            begun: Bytes::new(alloc),
        }
    }

    /// Takes the piece, up to the line if it comes, and says how many bytes of the piece that is.
    pub fn take(&mut self, alloc: Global, piece: &[u8]) -> Result<Option<usize>, NoMemory>
        ensures { IfOk result (TakesPiece self.old piece.now self.new) }
    {
        let mut rest = piece;
        'lines: loop {
            let (first, more) = split_once(rest, b'\n');
            self.begun.append(first)?;
            let Some(more) = more else {
                return Ok(None);
            };
            self.begun.push(b'\n')?;
            if is_wire_line(self.begun.as_slice()) {
                return Ok(Some(piece.len() - more.len()));
            }
            self.end_line(alloc)?;
            rest = more;
        }
    }

    /// Adds the line that is whole to the text.
    fn end_line(&mut self, alloc: Global) -> Result<(), NoMemory>
        ensures { OnOk result (self.new ≡ record {
          text = self.old.text ++ self.old.begun;
          begun = [];
        }) }
    {
        self.text.append(self.begun.as_slice())?;
        self.begun = Bytes::new(alloc);
        Ok(())
    }
}

/// Whether the line is `%% wire`.
fn is_wire_line(line: &[u8]) -> bool
    ensures { IsTrue result ↔ IsWireLine line.now }
{
    are_same(line, b"%% wire\n") || are_same(line, b"%% wire\r\n")
}
