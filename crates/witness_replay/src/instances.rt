ghost use Rattle.std.specs.Prelude.{◌≡◌, ◌<◌, length, IfOk};
ghost use Rattle.bspl_types.specs.History.{IsRun, sender_history};
ghost use Rattle.bspl_types.specs.Knowledge.{CanEmit};
ghost use Rattle.witness_replay.specs.Witness.{IsWitness, key_of_ones};

use super::values::values_after;
use bspl_types::{Event, Expanded, Instance, KEY_LIMIT, Key, Value, Values};
use list_base::NoMemory;
use std::alloc::Global;

/// The instance of the message that is emitted after these events.
pub(crate) fn instance_after(
    alloc: Global,
    x: &Expanded,
    before: &[Event],
    m: u32,
) -> Result<Instance, NoMemory>
    requires some_key { 0 < length x.now.keys }
    requires run { IsRun x.now before.now }
    requires can { CanEmit x.now (sender_history x.now before.now m) m (key_of_ones x.now) }
    ensures message { IfOk result (λ i. i.message ≡ m) }
    ensures witness { IfOk result (IsWitness x.now before.now) }
{
    let key = key_of_ones(x);
    let values = values_after(alloc, x, before, &key, m)?;
    Ok(Instance {
        message: m,
        key,
        values: Values::of(values.as_slice()),
    })
}

/// The key that has the value 1 for each key parameter.
pub fn key_of_ones(x: &Expanded) -> Key
    requires { 0 < length x.now.keys }
    ensures { result ≡ key_of_ones x.now }
{
    let ones = [Value::Number(1); KEY_LIMIT];
    Key::of(&ones[..x.keys.len()])
}
