use bspl_types::Value;
use list_base::{NumberList, Seq};

/// A parameter, as an index in the protocol's parameters, and its known value.
#[derive(Clone, Copy, Debug)]
pub struct KnownValue {
    pub param: u32,
    pub value: Value,
}

/// Parameters with their known values, in order.
pub type KnownValueList = Seq<KnownValue>;

/// A message that a role may send now under a key, and what its sender still has to choose.
#[derive(Drop)]
pub struct Form {
    /// The index in the protocol's messages.
    pub message: u32,
    /// Whether the message was emitted before under the key. Only one without `out` can be.
    pub sent: bool,
    /// The known values of its `in` parameters.
    pub ins: KnownValueList,
    /// The parameters whose values its sender chooses, in the order in which `Store::emit` takes
    /// these values.
    pub outs: NumberList,
}

/// Forms, in order.
pub type FormList = Seq<Form>;
