use bspl_types::Event;

/// An event of a role's history, with what the role knows of its place in time.
#[derive(Clone, Copy, Debug)]
pub struct Entry {
    /// The emission or the receipt.
    pub event: Event,
    /// The role's logical clock after the event (Lamport 1978).
    pub stamp: u64,
    /// Of an emission its own index in the history, of a receipt the index of its emission in the
    /// sender's.
    pub number: u32,
}

/// An entry of a role's history, among those of all roles.
#[derive(Clone, Copy, Debug)]
pub struct RoleEntry {
    /// The role, by its index in the protocol's roles.
    pub role: usize,
    /// The entry.
    pub entry: Entry,
}
