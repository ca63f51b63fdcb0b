/// The most roles that a protocol has.
pub const ROLE_LIMIT: usize = 8;

/// The most parameters that an expansion has, public and private.
pub const PARAM_LIMIT: usize = 64;

/// The most keys that a protocol has.
pub const KEY_LIMIT: usize = 4;

/// The most parameters that a message carries, `nil` ones included.
pub const CARRIED_LIMIT: usize = 16;

/// The most messages that an expansion has.
pub const MESSAGE_LIMIT: usize = 64;
