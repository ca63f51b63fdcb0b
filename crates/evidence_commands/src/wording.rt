//! What the lines on evidence say, word for word.

// A log is accepted: on safety, on liveness, or on the message whose name comes after.
pub(crate) const ACCEPTED_SAFETY: &[u8] = b"accepted safety";

pub(crate) const ACCEPTED_LIVENESS: &[u8] = b"accepted liveness";

pub(crate) const ACCEPTED_DEAD: &[u8] = b"accepted dead ";
