ghost use Rattle.std.specs.Prelude.{◌≡◌, ◌↔◌, IsTrue, List};
ghost use Rattle.std.specs.List.{All, zip};
ghost use Rattle.bspl_types.specs.declared.event.Event.{Event};
ghost use Rattle.bspl_types.specs.Adornment.{valued};
ghost use Rattle.bspl_types.specs.History.{sender_history};
ghost use Rattle.bspl_types.specs.Instance.{Fits};
ghost use Rattle.bspl_types.specs.Knowledge.{IsEnabled};
ghost use Rattle.run_index.specs.inner.Facts.{AreFacts};
ghost use Rattle.run_index.specs.inner.Knowing.{AreKnownBy, IsKnownBy, IsPermittedBy};
ghost use Rattle.run_index.specs.inner.Knowing.{IsPermittedWith};

use super::facts::Facts;
use bspl_types::{Adornment, Carried, Expanded, Instance, Message, Value};

/// Whether the instance is enabled in its sender's history, as far as the facts tell.
pub(crate) fn is_enabled(x: &Expanded, facts: &Facts, instance: &Instance) -> bool
    requires { Fits x.now instance.now }
    ensures { (before : List Event) → AreFacts x.now instance.now.key before facts.now →
        (IsTrue result ↔
        IsEnabled x.now (sender_history x.now before instance.now.message) instance.now) }
{
    is_permitted_with(
        facts,
        x.message_at(instance.message),
        instance.values.as_slice(),
    )
}

/// Whether the message's sender may emit it with these values.
fn is_permitted_with(facts: &Facts, message: &Message, values: &[Value]) -> bool
    ensures { IsTrue result ↔ IsPermittedWith facts.now message.now values.now }
{
    let carried = message.carried.as_slice();
    are_permitted(facts, message.sender, carried)
        && are_known(facts, message.sender, carried, values)
}

/// Whether what the role knows of each parameter is as its adornment demands.
fn are_permitted(facts: &Facts, role: u32, carried: &[Carried]) -> bool
    ensures { IsTrue result ↔ All (IsPermittedBy facts.now role) carried.now }
{
    carried.iter().all(|c| is_permitted(facts, role, *c))
}

/// Whether the role knows the parameter if it is adorned `in`, and does not know it otherwise.
fn is_permitted(facts: &Facts, role: u32, c: Carried) -> bool
    ensures { IsTrue result ↔ IsPermittedBy facts.now role c }
{
    match c.adornment {
        Adornment::In => facts.knows_param(role, c.param),
        Adornment::Out => !facts.knows_param(role, c.param),
        Adornment::Nil => !facts.knows_param(role, c.param),
    }
}

/// Whether the role knows each parameter adorned `in` with its value.
fn are_known(facts: &Facts, role: u32, carried: &[Carried], values: &[Value]) -> bool
    ensures { IsTrue result ↔ AreKnownBy facts.now role (zip (valued carried.now) values.now) }
{
    let [c, carried @ ..] = carried else {
        return true;
    };
    if !c.adornment.has_value() {
        return are_known(facts, role, carried, values);
    }
    let [value, values @ ..] = values else {
        return true;
    };
    is_known(facts, role, *c, *value) && are_known(facts, role, carried, values)
}

/// Whether the parameter is not adorned `in`, or the role knows it with the value.
fn is_known(facts: &Facts, role: u32, c: Carried, value: Value) -> bool
    ensures { IsTrue result ↔ IsKnownBy facts.now role (c, value) }
{
    match c.adornment {
        Adornment::In => facts.knows_value(role, c.param, value),
        Adornment::Out => true,
        Adornment::Nil => true,
    }
}
