ghost use Rattle.std.specs.Prelude.{◌≡◌, ◌↔◌, length, IsTrue};
ghost use Rattle.std.specs.List.{All, zip};
ghost use Rattle.bspl_types.specs.Adornment.{valued};
ghost use Rattle.bspl_types.specs.KeyAgrees.{KeyAgrees};

use super::protocol::Carried;
use super::value::{Value, are_equal};

/// How many values an instance of these parameters has.
pub fn count_valued(carried: &[Carried]) -> usize
    ensures { result ≡ length (valued carried.now) }
{
    carried.iter().filter(|c| c.adornment.has_value()).count()
}

/// Whether each key parameter has the key's value.
pub fn agree(keys: &[u32], key: &[Value], carried: &[Carried], values: &[Value]) -> bool
    requires { length key.now ≡ length keys.now }
    ensures { IsTrue result ↔
        All (KeyAgrees keys.now key.now) (zip (valued carried.now) values.now) }
{
    let mut remaining = values;
    for c in carried {
        if c.adornment.has_value() {
            let Some((value, rest)) = remaining.split_first() else {
                return true;
            };
            if !agrees(keys, key, *c, *value) {
                return false;
            }
            remaining = rest;
        }
    }
    true
}

/// Whether the parameter, if it is a key, has the key's value.
fn agrees(keys: &[u32], key: &[Value], c: Carried, value: Value) -> bool
    requires { length key.now ≡ length keys.now }
    ensures { IsTrue result ↔ KeyAgrees keys.now key.now (c, value) }
{
    for (index, k) in keys.iter().enumerate() {
        if *k == c.param && !key[index].same(&value) {
            return false;
        }
    }
    true
}
