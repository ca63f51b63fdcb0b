ghost use Rattle.std.specs.Prelude.{◌≡◌, ◌+◌, ◌*◌, ◌≤◌, ◌<◌, [], ◌∷◌, ◌++◌, length, replicate};
ghost use Rattle.std.specs.List.{All, flat_map};
ghost use Rattle.bspl_types.specs.declared.expanded.Expanded.{Expanded};
ghost use Rattle.bspl_types.specs.History.{instance_of};
ghost use Rattle.bspl_types.specs.Instance.{Fits};
ghost use Rattle.bspl_types.specs.Value.{IsValue};
ghost use Rattle.role_journal.specs.EntryBody.{IsEntry, entry_body, event_tag, value_body};

use bspl_types::{CARRIED_LIMIT, Event, Value};
use stamped_history::Entry;
use std::marker::Model;

/// The bytes of a place after its gate.
pub const BODY: usize = 561;

/// The bytes of a value.
pub const FIELD: usize = 34;

/// The bytes before the values: kind, message, stamp and number.
pub const HEAD: usize = 17;

/// The body of an entry, in place, while it is put together. Contracts see the bytes so far.
#[derive(Drop)]
pub struct Body {
    cells: [u8; BODY],
    len: usize,
}

impl Model for Body {
    ghost use Rattle.std.specs.Prelude.{◌≡◌, ◌≤◌, List, ℕ, take, length};

    ghost Value = { List ℕ };

    ghost view = { λ b. take b.len b.cells };

    ghost invariant = { λ b. (b.len ≤ 561) × (length b.cells ≡ 561) };
}

impl Body {
    /// The body of the entry.
    pub fn of(entry: &Entry) -> Body
        ensures bytes { result ≡ entry_body entry.now }
        ensures size { length result ≡ 561 }
        ensures sized { (x : Expanded) → Fits x (instance_of entry.now.event) →
            IsEntry x entry.now }
    {
        let instance = entry.event.instance();
        let values = instance.values.as_slice();
        let mut body = Body::new();
        body.push(kind(&entry.event));
        body.append(&instance.message.to_le_bytes());
        body.append(&entry.stamp.to_le_bytes());
        body.append(&entry.number.to_le_bytes());
        body.push_values(values);
        body.push_zeros(FIELD * (CARRIED_LIMIT - values.len()));
        body
    }

    /// No bytes yet.
    fn new() -> Body
        ensures { result ≡ [] }
    {
        Body {
            cells: [0; BODY],
            len: 0,
        }
    }

    /// The bytes, in order.
    pub fn as_slice(&self) -> &[u8]
        ensures { result.now ≡ self.now }
    {
        &self.cells[..self.len]
    }

    /// Puts a byte at the end.
    fn push(&mut self, byte: u8)
        requires { length self.old < 561 }
        ensures { self.new ≡ self.old ++ byte ∷ [] }
    {
        self.cells[self.len] = byte;
        self.len += 1;
    }

    /// Puts these bytes at the end.
    fn append(&mut self, bytes: &[u8])
        requires { length self.old + length bytes.now ≤ 561 }
        ensures { self.new ≡ self.old ++ bytes.now }
    {
        let end = self.len + bytes.len();
        self.cells[self.len..end].copy_from_slice(bytes);
        self.len = end;
    }

    /// Puts so many zeros at the end.
    fn push_zeros(&mut self, count: usize)
        requires { length self.old + count ≤ 561 }
        ensures { self.new ≡ self.old ++ replicate count 0 }
    {
        for _ in 0..count {
            self.push(0);
        }
    }

    /// Puts the field of each value at the end.
    fn push_values(&mut self, values: &[Value])
        requires { length self.old + 34 * length values.now ≤ 561 }
        ensures fields { self.new ≡ self.old ++ flat_map value_body values.now }
        ensures size { length self.new ≡ length self.old + 34 * length values.now }
        ensures good { All IsValue values.now }
    {
        for value in values {
            self.push_value(value);
        }
    }

    /// Puts the field of the value at the end.
    fn push_value(&mut self, value: &Value)
        requires { length self.old + 34 ≤ 561 }
        ensures field { self.new ≡ self.old ++ value_body value.now }
        ensures size { length self.new ≡ length self.old + 34 }
        ensures good { IsValue value.now }
    {
        match value {
            Value::Number(number) => {
                self.append(&[0, 8]);
                self.append(&number.to_le_bytes());
                self.push_zeros(24);
            }
            Value::Text(text) => {
                let bytes = text.as_slice();
                self.append(&[1, bytes.len() as u8]);
                self.append(bytes);
                self.push_zeros(32 - bytes.len());
            }
        }
    }
}

/// The byte that tells an emission from a receipt.
fn kind(event: &Event) -> u8
    ensures { result ≡ event_tag event.now }
{
    match event {
        Event::Emit(_) => 0,
        Event::Receive(_) => 1,
    }
}
