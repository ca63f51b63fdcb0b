ghost use Rattle.std.specs.Prelude.{◌≡◌, ◌<◌, ◌∷◌, ◌++◌, length, IfOk, OnOk};
ghost use Rattle.std.specs.List.{All};
ghost use Rattle.bspl_types.specs.Adornment.{valued};
ghost use Rattle.bspl_types.specs.History.{IsRun, instance_of};
ghost use Rattle.bspl_types.specs.Instance.{Fits};
ghost use Rattle.bspl_types.specs.Value.{IsValue};
ghost use Rattle.list_base.specs.Lines.{line_of};
ghost use Rattle.run_text.specs.RunText.{HaveValues, event_line, value_field, instance_fields};
ghost use Rattle.run_text.specs.RunText.{run_text};
ghost use Rattle.run_text.specs.inner.LineFields.{value_fields};

use bspl_types::{Admitted, Carried, Event, Expanded, Instance, ParamInfo, Value};
use list_base::{Bytes, NoMemory};
use std::alloc::Global;

/// The text of the run, of which `read_run` gives this run again.
pub fn write_run(alloc: Global, a: &Admitted, run: &[Event]) -> Result<Bytes, NoMemory>
    requires { IsRun a.now run.now }
    ensures text { IfOk result (λ text. text ≡ run_text a.now run.now) }
    ensures values { IfOk result (λ _. HaveValues run.now) }
{
    let x = a.expanded();
    let mut text = Bytes::from_slice(alloc, b"run 1\n")?;
    for event in run {
        push_event(&mut text, x, event)?;
    }
    text.append(b"end\n")?;
    Ok(text)
}

/// Appends the line of an event.
fn push_event(text: &mut Bytes, x: &Expanded, event: &Event) -> Result<(), NoMemory>
    requires { Fits x.now (instance_of event.now) }
    ensures text { OnOk result (text.new ≡ text.old ++ event_line x.now event.now) }
    ensures values { OnOk result (All IsValue (instance_of event.now).values) }
{
    match event {
        Event::Emit(instance) => push_line(text, x, b"send", instance),
        Event::Receive(instance) => push_line(text, x, b"receive", instance),
    }
}

/// Appends the line of the word and the instance.
fn push_line(text: &mut Bytes, x: &Expanded, word: &[u8], i: &Instance) -> Result<(), NoMemory>
    requires { Fits x.now i.now }
    ensures text { OnOk result
        (text.new ≡ text.old ++ line_of (word.now ∷ instance_fields x.now i.now)) }
    ensures values { OnOk result (All IsValue i.now.values) }
{
    let message = x.messages.at(i.message as usize);
    text.append(word)?;
    text.push(b' ')?;
    text.append(message.name.as_slice())?;
    let carried = message.carried.as_slice();
    push_values(text, x.params.as_slice(), carried, i.values.as_slice())?;
    text.push(b'\n')
}

/// Appends a field for each parameter that has a value.
fn push_values(
    text: &mut Bytes,
    params: &[ParamInfo],
    carried: &[Carried],
    values: &[Value],
) -> Result<(), NoMemory>
    requires known { All (λ c. c.param < length params.now) carried.now }
    requires each { length values.now ≡ length (valued carried.now) }
    ensures text { OnOk result (text.new ≡
        text.old ++ value_fields params.now (valued carried.now) values.now) }
    ensures values { OnOk result (All IsValue values.now) }
{
    let mut remaining = values;
    for c in carried {
        if c.adornment.has_value() {
            let Some((value, rest)) = remaining.split_first() else {
                return Ok(());
            };
            push_value(text, params, *c, value)?;
            remaining = rest;
        }
    }
    Ok(())
}

/// Appends the field of a parameter and its value. If memory runs out, a part of it may have been
/// appended.
fn push_value(
    text: &mut Bytes,
    params: &[ParamInfo],
    c: Carried,
    value: &Value,
) -> Result<(), NoMemory>
    requires { c.param < length params.now }
    ensures text { OnOk result (text.new ≡
        text.old ++ 32 ∷ value_field params.now (c, value.now)) }
    ensures value { OnOk result (IsValue value.now) }
{
    text.push(b' ')?;
    text.append(params[c.param as usize].name.as_slice())?;
    text.push(b'=')?;
    value.write(text)
}
