/// Which of the two a role does with an instance.
#[derive(Clone, Copy, Debug)]
pub enum Kind {
    Emitted,
    Received,
}

/// An event as a store keeps it: its values are in the row of its key.
#[derive(Clone, Copy, Debug)]
pub struct Act {
    pub kind: Kind,
    pub message: u32,
    pub row: u32,
    pub stamp: u64,
    pub number: u32,
}
