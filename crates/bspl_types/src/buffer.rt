ghost use Rattle.std.specs.Prelude.{◌≡◌, ◌<◌, ◌≤◌, [], ◌∷◌, ◌++◌, length};

use std::marker::Model;

/// Bytes in place, with room for the longest spelling of a value: 32 bytes of three each, and two
/// quotes. Contracts see the bytes.
#[derive(Drop)]
pub struct Buffer {
    cells: [u8; 98],
    len: usize,
}

impl Model for Buffer {
    ghost use Rattle.std.specs.Prelude.{◌≡◌, ◌≤◌, List, ℕ, take, length};

    ghost Value = { List ℕ };

    ghost view = { λ b. take b.len b.cells };

    ghost invariant = { λ b. (b.len ≤ 98) × (length b.cells ≡ 98) };
}

impl Buffer {
    /// No bytes.
    pub fn new() -> Buffer
        ensures { result ≡ [] }
    {
        Buffer {
            cells: [0; 98],
            len: 0,
        }
    }

    /// The bytes, in order.
    pub fn as_slice(&self) -> &[u8]
        ensures { result.now ≡ self.now }
    {
        &self.cells[..self.len]
    }

    /// How many bytes there are.
    pub fn len(&self) -> usize
        ensures { result ≡ length self.now }
    {
        self.len
    }

    /// Puts a byte at the end.
    pub fn push(&mut self, byte: u8)
        requires { length self.old < 98 }
        ensures { self.new ≡ self.old ++ byte ∷ [] }
    {
        self.cells[self.len] = byte;
        self.len += 1;
    }
}
