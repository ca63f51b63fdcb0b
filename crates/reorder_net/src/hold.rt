use bspl_types::Envelope;
use std::collections::LinkedList;

/// What a pass to a mailbox knows. No value of it is made: it stands in proofs alone.
pub struct Hold {
    /// The role whose mailbox it is.
    pub home: u64,
    /// The sender of the first of the lists.
    pub low: u64,
    /// What each of some neighbouring senders put, in order.
    pub puts: LinkedList<LinkedList<Envelope>>,
    /// Whether the role takes by this pass.
    pub takes: bool,
    /// What it took, in order.
    pub taken: LinkedList<Envelope>,
}
