ghost use Rattle.std.specs.Prelude.{◌≡◌};
ghost use Rattle.bspl_types.specs.Adornment.{has_value};

use super::Name;
use list_base::{NoMemory, Seq, TryClone};

/// What a message asks of its sender's knowledge of a parameter (Singh 2011).
#[derive(Clone, Copy, Debug, PartialEq, Eq)]
pub enum Adornment {
    /// The sender must know the value.
    In,
    /// The emission produces the value.
    Out,
    /// The sender must not know a value, and the message binds none.
    Nil,
}

impl Adornment {
    /// Whether an instance has a value for a parameter with this adornment.
    pub fn has_value(self) -> bool
        ensures { result ≡ has_value self }
    {
        match self {
            Adornment::In | Adornment::Out => true,
            Adornment::Nil => false,
        }
    }
}

/// A parameter of a message, by its index in the protocol's parameters.
#[derive(Clone, Copy, Debug)]
pub struct Carried {
    pub param: u32,
    pub adornment: Adornment,
}

/// The parameters of a message, in the order of its schema.
pub type CarriedList = Seq<Carried>;

/// A message schema. Roles are indices in the protocol's roles.
#[derive(Drop)]
pub struct Message {
    pub name: Name,
    pub sender: u32,
    pub receiver: u32,
    pub carried: CarriedList,
}

/// The messages of a protocol, in its order.
pub type MessageList = Seq<Message>;

/// What a protocol declares of a parameter. A private one has no adornment.
#[derive(Drop)]
pub struct ParamInfo {
    pub name: Name,
    pub adornment: Option<Adornment>,
    pub key: bool,
}

impl ParamInfo {
    ghost use Rattle.bspl_types.specs.Shape.{is_public_value};

    /// Whether it is public, and adorned `in` or `out`.
    pub fn is_public_value(&self) -> bool
        ensures { result ≡ is_public_value self.now.adornment }
    {
        match self.adornment {
            None => false,
            Some(adornment) => adornment.has_value(),
        }
    }
}

/// The parameters of a protocol, the public ones first.
pub type ParamInfoList = Seq<ParamInfo>;

impl TryClone for Carried {
    fn try_clone(&self) -> Result<Carried, NoMemory> {
        Ok(*self)
    }
}

impl TryClone for Message {
    fn try_clone(&self) -> Result<Message, NoMemory> {
        Ok(Message {
            name: self.name.try_clone()?,
            sender: self.sender,
            receiver: self.receiver,
            carried: self.carried.try_clone()?,
        })
    }
}

impl TryClone for ParamInfo {
    fn try_clone(&self) -> Result<ParamInfo, NoMemory> {
        Ok(ParamInfo {
            name: self.name.try_clone()?,
            adornment: self.adornment,
            key: self.key,
        })
    }
}
