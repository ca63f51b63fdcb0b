ghost use Rattle.std.specs.Prelude.{◌≡◌, ◌↔◌, [], ◌∷◌, IfSome, IsSome, MatchOption};
ghost use Rattle.std.specs.List.{zip};
ghost use Rattle.bspl_types.specs.Adornment.{valued};
ghost use Rattle.bspl_types.specs.History.{history_of, instance_of, IsRun};
ghost use Rattle.bspl_types.specs.Instance.{Fits};
ghost use Rattle.bspl_types.specs.Knowledge.{IsKnown, Knows};
ghost use Rattle.role_knowledge.specs.FirstKnown.{IsFirstKnown};
ghost use Rattle.role_knowledge.specs.inner.FirstValue.{first_value};

use bspl_types::{Carried, Event, Expanded, Key, Value};

/// The value of the parameter that the role knows under the key: that of the first event of the
/// role under the key whose message adorns the parameter `in` or `out` (Singh 2011).
///
/// Events are those of all roles, in order. The role and the parameter are indices in the
/// protocol's. It takes no memory.
pub fn knows(x: &Expanded, events: &[Event], role: u32, key: &Key, param: u32) -> Option<Value>
    requires { IsRun x.now events.now }
    ensures exact { IsSome result ↔
        IsKnown x.now (history_of x.now role events.now) key.now param }
    ensures first { IfSome result
        (IsFirstKnown x.now (history_of x.now role events.now) key.now param) }
{
    for event in events {
        if event.role(x) == role {
            if let Some(value) = known_by(x, event, key, param) {
                return Some(value);
            }
        }
    }
    None
}

/// The value that the event alone makes known under the key.
fn known_by(x: &Expanded, event: &Event, key: &Key, param: u32) -> Option<Value>
    requires { Fits x.now (instance_of event.now) }
    ensures { MatchOption result
        (¬ IsKnown x.now (event.now ∷ []) key.now param)
        (Knows x.now (event.now ∷ []) key.now param) }
{
    let instance = event.instance();
    if !instance.key.same(key) {
        return None;
    }
    let message = x.messages.at(instance.message as usize);
    value_of(
        message.carried.as_slice(),
        instance.values.as_slice(),
        param,
    )
}

/// The value of the parameter, the first if the message has it twice.
fn value_of(carried: &[Carried], values: &[Value], param: u32) -> Option<Value>
    ensures { result ≡ first_value (zip (valued carried.now) values.now) param }
{
    let mut remaining = values;
    for c in carried {
        if c.adornment.has_value() {
            let Some((value, rest)) = remaining.split_first() else {
                return None;
            };
            if c.param == param {
                return Some(*value);
            }
            remaining = rest;
        }
    }
    None
}
