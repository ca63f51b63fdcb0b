use bspl_types::Value;

/// Why an event may not follow the events before it. The parameter is an index in the protocol's
/// parameters.
#[derive(Clone, Copy, Debug)]
pub enum Why {
    /// The sender does not know the `in` parameter.
    Missing { param: u32 },
    /// The sender knows a value of the `out` or `nil` parameter: the first one known is `kept`.
    Bound { param: u32, kept: Value },
    /// The sender knows the `in` parameter, and not with the value that is sent: the first value
    /// known is `kept`.
    Other { param: u32, kept: Value },
    /// What is received was not emitted before.
    Unsent,
}

/// The first event of a run that may not follow those before it. Places are counted from 1.
#[derive(Clone, Copy, Debug)]
pub struct BadEvent {
    pub place: usize,
    pub why: Why,
}
