use super::event::Instance;

/// An instance as its sender emitted it.
#[derive(Clone, Copy, Debug)]
pub struct Stamped {
    /// What was emitted.
    pub instance: Instance,
    /// The sender's logical clock at the emission, which rises with each event (Lamport 1978).
    pub stamp: u64,
    /// The index, from 0, of the emission in its sender's list of events.
    pub number: u32,
}

/// A message on its way, from one role to another. Roles are indices in the protocol's roles.
#[derive(Clone, Copy, Debug)]
pub struct Envelope {
    /// The receiver.
    pub to: u32,
    /// The sender.
    pub from: u32,
    /// What was emitted.
    pub message: Stamped,
    /// How many times it is still to be delivered.
    pub copies: u32,
}
