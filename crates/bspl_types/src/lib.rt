//! Values, keys, events and expansions, and what knowledge means.
#![tactic(auto)]

mod admission;
mod buffer;
mod envelope;
mod event;
mod expanded;
mod field;
mod key;
mod laws;
mod limits;
mod lookup;
mod named;
mod names;
mod pairs;
mod property;
mod protocol;
mod refusals;
mod shape;
mod spelling;
mod text;
mod value;

pub use admission::Admitted;
pub use envelope::{Envelope, Stamped};
pub use event::{Event, Instance, Run};
pub use expanded::Expanded;
pub use key::{Key, Values};
pub use laws::{
    equal_values_are_one, messages_are_named_once, params_are_named_once, roles_are_named_once,
    spells_once,
};
pub use limits::{CARRIED_LIMIT, KEY_LIMIT, MESSAGE_LIMIT, PARAM_LIMIT, ROLE_LIMIT};
pub use list_base::{Bytes, NoMemory, NumberList, Seq, TryClone};
pub use named::{Named, are_named, index_of};
pub use names::{begins_name, is_name, is_plain_name, is_reserved};
pub use property::Property;
pub use protocol::{
    Adornment, Carried, CarriedList, Message, MessageList, ParamInfo, ParamInfoList,
};
pub use refusals::{Refusal, What};
pub use shape::{is_well_formed, key_indices};
pub use text::Text32;
pub use value::{Value, are_equal};

/// The bytes of a name.
pub type Name = Seq<u8>;

/// Names, in order.
pub type NameList = Seq<Name>;
