ghost use Rattle.std.specs.Prelude.{◌≡◌};
ghost use Rattle.key_table.specs.EventOrder.{event_cmp, instance_cmp};
ghost use Rattle.key_table.specs.KeyOrder.{value_cmp, key_cmp};

use bspl_types::{Event, Instance, Value};
use std::cmp::Ordering;

/// The order of two values: numbers come before texts, each by their own order.
pub(crate) fn compare(left: &Value, right: &Value) -> Ordering
    ensures { result ≡ value_cmp left.now right.now }
{
    match (left, right) {
        (Value::Number(number), Value::Number(other)) => number.cmp(other),
        (Value::Text(text), Value::Text(other)) => text.as_slice().cmp(other.as_slice()),
        (Value::Number(_), Value::Text(_)) => Ordering::Less,
        (Value::Text(_), Value::Number(_)) => Ordering::Greater,
    }
}

/// The order of two lists of values: by the first that differ, and else by their lengths.
pub(crate) fn compare_all(left: &[Value], right: &[Value]) -> Ordering
    ensures { result ≡ key_cmp left.now right.now }
{
    match left {
        [] => if right.is_empty() {
            Ordering::Equal
        } else {
            Ordering::Less
        },
        [value, left @ ..] => match right {
            [] => Ordering::Greater,
            [other, right @ ..] => match compare(value, other) {
                Ordering::Equal => compare_all(left, right),
                differs => differs,
            },
        },
    }
}

/// The order of two instances: by message, then by key, then by values.
fn compare_instances(left: &Instance, right: &Instance) -> Ordering
    ensures { result ≡ instance_cmp left.now right.now }
{
    match left.message.cmp(&right.message) {
        Ordering::Equal => match compare_all(left.key.as_slice(), right.key.as_slice()) {
            Ordering::Equal => compare_all(left.values.as_slice(), right.values.as_slice()),
            differs => differs,
        },
        differs => differs,
    }
}

/// The order of two events: emissions come before receptions, each by the order of instances.
pub(crate) fn compare_events(left: &Event, right: &Event) -> Ordering
    ensures { result ≡ event_cmp left.now right.now }
{
    match (left, right) {
        (Event::Emit(instance), Event::Emit(other)) => compare_instances(instance, other),
        (Event::Receive(instance), Event::Receive(other)) => compare_instances(instance, other),
        (Event::Emit(_), Event::Receive(_)) => Ordering::Less,
        (Event::Receive(_), Event::Emit(_)) => Ordering::Greater,
    }
}
