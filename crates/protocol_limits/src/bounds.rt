/// The most protocols that a document may declare.
pub const PROTOCOL_LIMIT: usize = 64;

/// The most references that a path may have.
pub const DEPTH_LIMIT: usize = 8;
