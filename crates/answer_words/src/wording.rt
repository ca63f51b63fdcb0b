//! What a user reads, word for word.

pub(crate) mod details;
pub(crate) mod refusals;
pub(crate) mod verdicts;

// How a sentence of an answer begins and ends.
pub(crate) const WHAT_IS_WRONG: &[u8] = b"What is wrong: ";

pub(crate) const WHAT_TO_DO: &[u8] = b"What to do: ";

pub(crate) const FULL_STOP: &[u8] = b".\n";

// The place of a refusal, its line, and the mark under it.
pub(crate) const LINE: &[u8] = b"line ";

pub(crate) const COLUMN: &[u8] = b", column ";

pub(crate) const NEXT_SHOWN: &[u8] = b"\n  ";

pub(crate) const MARK: &[u8] = b"^\n";

// How many there may be of what is counted.
pub(crate) const TEXT_LIMIT: &[u8] = b"1048576 bytes of protocol text";

pub(crate) const PROTOCOL_LIMIT: &[u8] = b"64 protocols in the text";

pub(crate) const DEPTH_LIMIT: &[u8] = b"8 references on one path";

pub(crate) const ROLE_LIMIT: &[u8] = b"8 roles";

pub(crate) const PARAMETER_LIMIT: &[u8] = b"64 parameters, private ones too";

pub(crate) const KEY_LIMIT: &[u8] = b"4 keys";

pub(crate) const CARRIED_LIMIT: &[u8] = b"16 parameters of one message";

pub(crate) const MESSAGE_LIMIT: &[u8] = b"64 messages";
