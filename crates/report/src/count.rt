/// How often a message was sent and received.
#[derive(Clone, Copy)]
pub struct Count {
    /// Its emissions.
    pub sent: usize,
    /// Its receptions.
    pub received: usize,
}
