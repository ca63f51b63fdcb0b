use bspl_types::{Adornment, Carried, Expanded, Message, Name, NoMemory, ParamInfo, Seq};
use std::alloc::Global;

/// A parameter of a protocol.
#[derive(Clone, Copy)]
pub(crate) struct Declared {
    pub name: &'static [u8],
    pub adornment: Option<Adornment>,
    pub key: bool,
}

/// A message of a protocol.
#[derive(Clone, Copy)]
pub(crate) struct Schema {
    pub name: &'static [u8],
    pub sender: u32,
    pub receiver: u32,
    pub carried: &'static [Carried],
}

/// A protocol; the first parameters are public, as many as is said.
#[derive(Clone, Copy)]
pub(crate) struct Parts {
    pub roles: &'static [&'static [u8]],
    pub params: &'static [Declared],
    pub public: u32,
    pub messages: &'static [Schema],
}

pub(crate) const OUT_ID: Carried = Carried {
    param: 0,
    adornment: Adornment::Out,
};

pub(crate) const ID: Declared = Declared {
    name: b"ID",
    adornment: Some(Adornment::Out),
    key: true,
};

/// Role A sends ping to role B; it produces the key ID.
pub(crate) const PING: Schema = Schema {
    name: b"ping",
    sender: 0,
    receiver: 1,
    carried: &[OUT_ID],
};

/// The protocol of ping alone.
pub(crate) const PING_ALONE: Parts = Parts {
    roles: &[b"A", b"B"],
    params: &[ID],
    public: 1,
    messages: &[PING],
};

/// The name with these bytes.
fn name(alloc: Global, text: &[u8]) -> Result<Name, NoMemory> {
    Seq::from_slice(alloc, text)
}

/// The names, in order.
fn names(alloc: Global, texts: &[&[u8]]) -> Result<Seq<Name>, NoMemory> {
    let mut names = Seq::new(alloc);
    for text in texts {
        names.push(name(alloc, text)?)?;
    }
    Ok(names)
}

/// The parameter.
fn param(alloc: Global, declared: &Declared) -> Result<ParamInfo, NoMemory> {
    Ok(ParamInfo {
        name: name(alloc, declared.name)?,
        adornment: declared.adornment,
        key: declared.key,
    })
}

/// The parameters, in order.
fn params(alloc: Global, declared: &[Declared]) -> Result<Seq<ParamInfo>, NoMemory> {
    let mut params = Seq::new(alloc);
    for row in declared {
        params.push(param(alloc, row)?)?;
    }
    Ok(params)
}

/// The message.
fn message(alloc: Global, schema: &Schema) -> Result<Message, NoMemory> {
    let name = name(alloc, schema.name)?;
    let carried = Seq::from_slice(alloc, schema.carried)?;
    Ok(Message {
        name,
        sender: schema.sender,
        receiver: schema.receiver,
        carried,
    })
}

/// The messages, in order.
fn messages(alloc: Global, schemas: &[Schema]) -> Result<Seq<Message>, NoMemory> {
    let mut messages = Seq::new(alloc);
    for schema in schemas {
        messages.push(message(alloc, schema)?)?;
    }
    Ok(messages)
}

/// The protocol of the parts, if they are well formed.
pub(crate) fn assemble(alloc: Global, parts: &Parts) -> Result<Option<Expanded>, NoMemory> {
    let roles = names(alloc, parts.roles)?;
    let params = params(alloc, parts.params)?;
    let messages = messages(alloc, parts.messages)?;
    let protocol = name(alloc, b"Ping")?;
    Expanded::assemble(alloc, protocol, roles, params, parts.public, messages)
}
