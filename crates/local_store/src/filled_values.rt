ghost use Rattle.std.specs.Prelude.{◌≡◌, ◌+◌, ◌<◌, ◌≤◌, ℕ, length, slice_index_or};
ghost use Rattle.bspl_types.specs.Limits.{carried_limit};
ghost use Rattle.local_store.specs.inner.Acts.{value_in};
ghost use Rattle.local_store.specs.inner.FilledValues.{filled, filling, key_value};
ghost use Rattle.local_store.specs.inner.Grids.{HasCells, cell_at};

use super::cells::Cells;
use bspl_types::{Adornment, CARRIED_LIMIT, Carried, Value, Values};

/// A value in place of one that is missing.
const BLANK: Value = Value::Number(0);

/// The values of an emission of these parameters: known ones from the row, those of key parameters
/// from the key, and the chosen ones in their order.
pub fn fill(
    cells: &Cells,
    row: usize,
    keys: &[u32],
    key: &[Value],
    outs: &[Value],
    carried: &[Carried],
) -> Values
    requires cells { HasCells cells.now.width cells.now.rows row carried.now }
    requires few { length carried.now ≤ carried_limit }
    ensures { result ≡ filled
        (λ (p : ℕ). value_in (cell_at cells.now.width cells.now.items row p))
        (key_value keys.now key.now) outs.now carried.now 0 }
{
    let mut values = [BLANK; CARRIED_LIMIT];
    let mut count = 0;
    let mut used = 0;
    for c in carried {
        if c.adornment.has_value() {
            let known = value_in(cells.at(row, c.param as usize));
            let next = filling(
                c.adornment,
                known,
                key_value(keys, key, c.param),
                chosen_at(outs, used),
            );
            values[count] = next.0;
            count += 1;
            used += next.1;
        }
    }
    Values::of(&values[..count])
}

/// The value of one parameter, and how many chosen values it uses.
fn filling(adornment: Adornment, known: Value, of_key: Option<Value>, next: Value) -> (Value, usize)
    ensures value { result ≡ filling adornment known of_key next }
    ensures one { result.1 ≤ 1 }
{
    match (adornment, of_key) {
        (Adornment::Out, Some(value)) => (value, 0),
        (Adornment::Out, None) => (next, 1),
        (_, _) => (known, 0),
    }
}

/// The chosen value at the index, or 0 past the end.
fn chosen_at(outs: &[Value], i: usize) -> Value
    ensures { result ≡ slice_index_or outs.now i (Value.Number 0) }
{
    if i < outs.len() { outs[i] } else { BLANK }
}

/// The value in the cell, or 0.
pub fn value_in(cell: Option<Value>) -> Value
    ensures { result ≡ value_in cell }
{
    cell.unwrap_or(BLANK)
}

/// The key's value of the parameter, if it is a key parameter.
fn key_value(keys: &[u32], key: &[Value], param: u32) -> Option<Value>
    ensures { result ≡ key_value keys.now key.now param }
{
    let mut remaining = key;
    for k in keys {
        let Some((value, rest)) = remaining.split_first() else {
            return None;
        };
        if *k == param {
            return Some(*value);
        }
        remaining = rest;
    }
    None
}
