ghost use Rattle.std.specs.Prelude.{◌≡◌, ◌<◌, ◌≤◌, length, nat_eq, slice_get, Some};
ghost use Rattle.std.specs.Cmp.{partial_equiv_from_equiv};
ghost use Rattle.std.proofs.lemmas.Cmp.{nat_list_eq_equiv};
ghost use lib.Pointwise.{pointwise};
ghost use Rattle.bspl_types.specs.Limits.{value_text_limit};
ghost use Rattle.bspl_types.specs.Text.{IsTextValue};

use std::marker::Model;

/// A text of at most 32 bytes, held in place. Contracts see its bytes, in order.
#[derive(Clone, Copy, Debug)]
pub struct Text32 {
    cells: [u8; 32],
    len: u8,
}

impl Model for Text32 {
    ghost use Rattle.std.specs.Prelude.{List, ℕ, take, length};
    ghost use Rattle.bspl_types.specs.Limits.{value_text_limit};
    ghost use Rattle.bspl_types.specs.inner.Padded.{padded, IsPadded, padded_items, length_items};
    ghost use Rattle.bspl_types.specs.Text.{IsTextValue};

    ghost Value = { List ℕ };

    ghost view = { λ t. take t.len t.cells };

    ghost invariant = { λ t.
        IsTextValue (take t.len t.cells) × IsPadded value_text_limit 0 t.len t.cells };

    ghost inverse = { λ bytes. record {
      cells = padded value_text_limit 0 bytes;
      len = length bytes;
    } };

    ghost inverse_ok = { λ t is_text i. record {
      cells = padded_items value_text_limit 0 t.len t.cells is_text.1 i;
      len = length_items value_text_limit 0 t.len t.cells is_text.1 i;
    } };
}

impl Text32 {
    /// The text of these bytes.
    pub fn of(bytes: &[u8]) -> Text32
        requires { length bytes.now ≤ value_text_limit }
        ensures bytes { result ≡ bytes.now }
        ensures text { IsTextValue result }
    {
        let len = bytes.len();
        let mut cells = [0; 32];
        cells[..len].copy_from_slice(bytes);
        Text32 {
            cells,
            len: len as u8,
        }
    }

    /// The bytes, in order.
    pub fn as_slice(&self) -> &[u8]
        ensures bytes { result.now ≡ self.now }
        ensures text { IsTextValue self.now }
    {
        &self.cells[..usize::from(self.len)]
    }

    /// How many bytes there are.
    pub fn len(&self) -> usize
        ensures { result ≡ length self.now }
    {
        usize::from(self.len)
    }

    /// The byte at the index, from 0.
    pub fn at(&self, i: usize) -> u8
        requires { i < length self.now }
        ensures { slice_get self.now i ≡ Some result }
    {
        self.as_slice()[i]
    }
}

impl PartialEq for Text32 {
    ghost eq = { pointwise nat_eq };

    ghost laws = { partial_equiv_from_equiv nat_list_eq_equiv };

    fn eq(&self, other: &Text32) -> bool {
        self.as_slice() == other.as_slice()
    }
}

impl Eq for Text32 {
    ghost laws = { nat_list_eq_equiv };
}
