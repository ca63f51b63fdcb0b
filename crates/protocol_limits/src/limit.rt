use bspl_types::What;

/// What is counted, how many there are, and the most that there may be.
#[derive(Clone, Copy)]
pub struct Limit {
    /// What is counted.
    pub what: What,
    /// How many there are.
    pub count: u64,
    /// The most that there may be.
    pub most: u64,
}
