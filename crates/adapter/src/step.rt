use bspl_types::{Envelope, Key, Values};

/// A message that an agent can emit next, under the row's key.
#[derive(Clone, Copy, Debug)]
pub(crate) struct Ready {
    pub(crate) message: u32,
    pub(crate) row: usize,
}

/// A message that an agent is to emit under the row's key, with these values of its own.
#[derive(Clone, Copy, Debug)]
pub(crate) struct Step {
    pub(crate) message: u32,
    pub(crate) row: usize,
    pub(crate) key: Key,
    pub(crate) outs: Values,
}

/// The envelope of an emission under the row's key, before it is emitted.
#[derive(Clone, Copy, Debug)]
pub(crate) struct Planned {
    pub(crate) row: usize,
    pub(crate) envelope: Envelope,
}
