/// The most bytes that are read.
pub const INPUT_LIMIT: u64 = 536_870_912;

/// The most bytes that a protocol text has.
pub const TEXT_LIMIT: usize = 1_048_576;
