/// A property of protocols that is decided.
#[derive(Clone, Copy, Debug, PartialEq, Eq)]
pub enum Property {
    /// No legal run has two producers of one parameter under one key, and the roles agree.
    Safety,
    /// At each key at which a legal run is quiet, each public parameter with a value is bound.
    Liveness,
}
