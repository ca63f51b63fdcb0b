use bspl_types::{Key, Stamped, Values};

/// What a line asks of a role's store.
#[derive(Clone, Copy, Debug)]
pub enum Act {
    /// To receive the message.
    Arrival(Stamped),
    /// To emit the message of that number under the key, with these values of its `out` parameters
    /// that are no keys.
    Attempt {
        message: u32,
        key: Key,
        outs: Values,
    },
}

/// What is read of a line.
#[derive(Clone, Copy, Debug)]
pub enum Reading {
    /// It asks for nothing.
    NotRead,
    /// It asks for what is nothing to this role.
    NotMeant,
    /// It asks for this.
    Meant(Act),
}
