//! What the lines of agents and roles say, word for word.

// How the line begins that names the role which replies.
pub(crate) const ROLE: &[u8] = b"role ";

// The word before the number of roles that were restarted.
pub(crate) const RESTARTS: &[u8] = b"restarts";
