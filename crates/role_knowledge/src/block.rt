use bspl_types::Value;

/// Why a message cannot be emitted. The parameter is an index in the protocol's parameters.
#[derive(Clone, Copy, Debug)]
pub enum Block {
    /// The sender does not know the `in` parameter.
    Missing { param: u32 },
    /// The sender knows a value of the `out` or `nil` parameter: the first one known is `kept`.
    Bound { param: u32, kept: Value },
}
