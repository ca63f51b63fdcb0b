use bspl_types::Value;

/// What a store answers to a message. The parameter is an index in the protocol's parameters.
#[derive(Clone, Copy, Debug)]
pub enum Receipt {
    /// The receipt is a new event.
    Fresh,
    /// The same instance was received before.
    Repeat,
    /// Another value than the one that arrived is known of the parameter.
    Differs {
        param: u32,
        kept: Value,
        arrived: Value,
    },
}
