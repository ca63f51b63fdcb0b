ghost use Rattle.std.specs.Prelude.{◌≡◌, ◌≢◌, MatchOption};
ghost use Rattle.bspl_types.specs.declared.event.Event.{Event};
ghost use Rattle.bspl_types.specs.declared.event.Instance.{Instance};
ghost use Rattle.bspl_types.specs.Admission.{IsAdmitted};
ghost use Rattle.bspl_types.specs.History.{instance_of};
ghost use Rattle.run_text.specs.RunText.{event_body, IsFitting};
ghost use Rattle.run_text.specs.inner.LineFields.{instance_body};

use super::fields::values_of;
use super::key::key_of;
use bspl_types::{Event, Expanded, Instance, index_of};
use text_lines::split_once;

/// The event whose line this is, without its LF.
pub fn event_of(x: &Expanded, line: &[u8]) -> Option<Event>
    requires { IsAdmitted x.now }
    ensures { MatchOption result
        ((event : Event) → IsFitting x.now (instance_of event) → line.now ≢ event_body x.now event)
        (λ event. IsFitting x.now (instance_of event) × (line.now ≡ event_body x.now event)) }
{
    let (word, rest) = split_once(line, b' ');
    let Some(rest) = rest else {
        return None;
    };
    let Some(instance) = instance_of(x, rest) else {
        return None;
    };
    if word == b"send".as_slice() {
        return Some(Event::Emit(instance));
    }
    if word == b"receive".as_slice() {
        return Some(Event::Receive(instance));
    }
    None
}

/// The instance whose name and fields these are.
fn instance_of(x: &Expanded, text: &[u8]) -> Option<Instance>
    requires { IsAdmitted x.now }
    ensures { MatchOption result
        ((i : Instance) → IsFitting x.now i → text.now ≢ instance_body x.now i)
        (λ i. IsFitting x.now i × (text.now ≡ instance_body x.now i)) }
{
    let (name, fields) = split_once(text, b' ');
    let Some(index) = index_of(x.messages.as_slice(), name) else {
        return None;
    };
    let carried = x.messages.at(index).carried.as_slice();
    let Some(values) = values_of(x.params.as_slice(), carried, fields) else {
        return None;
    };
    Some(Instance {
        message: index as u32,
        key: key_of(x.keys.as_slice(), carried, values.as_slice()),
        values,
    })
}
