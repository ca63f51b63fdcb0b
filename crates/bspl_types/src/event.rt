ghost use Rattle.std.specs.Prelude.{◌≡◌, ◌↔◌, IsTrue};

use super::expanded::Expanded;
use super::key::{Key, Values};
use super::pairs::{agree, count_valued};
use list_base::Seq;

/// One message with its values, under one key.
///
/// The values are those of the message's parameters adorned `in` or `out`, in its order, with those
/// of key parameters.
#[derive(Clone, Copy, Debug)]
pub struct Instance {
    pub message: u32,
    pub key: Key,
    pub values: Values,
}

impl Instance {
    ghost use Rattle.bspl_types.specs.Instance.{Fits};

    /// Whether the message exists and its key and values fit the protocol.
    pub fn fits(&self, x: &Expanded) -> bool
        ensures { IsTrue result ↔ Fits x.now self.now }
    {
        let index = self.message as usize;
        if index >= x.messages.len() {
            return false;
        }
        let carried = x.messages.at(index).carried.as_slice();
        let keys = x.keys.as_slice();
        self.key.len() == keys.len()
            && self.values.len() == count_valued(carried)
            && agree(keys, self.key.as_slice(), carried, self.values.as_slice())
    }

    /// Whether both are one message with the same key and values.
    pub fn same(&self, other: &Instance) -> bool
        ensures { IsTrue result ↔ (self.now ≡ other.now) }
    {
        self.message == other.message
            && self.key.same(&other.key)
            && self.values.same(&other.values)
    }
}

/// One role's act.
#[derive(Clone, Copy, Debug)]
pub enum Event {
    /// The sender emits the instance.
    Emit(Instance),
    /// The receiver gets the instance.
    Receive(Instance),
}

impl Event {
    ghost use Rattle.bspl_types.specs.Instance.{Fits};
    ghost use Rattle.bspl_types.specs.History.{instance_of, role_of};

    /// What is emitted or received.
    pub fn instance(&self) -> &Instance
        ensures { result.now ≡ instance_of self.now }
    {
        match self {
            Event::Emit(instance) | Event::Receive(instance) => instance,
        }
    }

    /// Whose act it is.
    pub fn role(&self, x: &Expanded) -> u32
        requires { Fits x.now (instance_of self.now) }
        ensures { result ≡ role_of x.now self.now }
    {
        match self {
            Event::Emit(instance) => x.messages.at(instance.message as usize).sender,
            Event::Receive(instance) => x.messages.at(instance.message as usize).receiver,
        }
    }
}

/// Events of all roles, in order.
pub type Run = Seq<Event>;
