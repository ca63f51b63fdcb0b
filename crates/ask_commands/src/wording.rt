//! What the lines of answers say, word for word.

// The answer to a question.
pub(crate) const POSSIBLE: &[u8] = b"possible";

pub(crate) const IMPOSSIBLE: &[u8] = b"impossible";

pub(crate) const UNDECIDED: &[u8] = b"undecided";

// A log is accepted.
pub(crate) const ACCEPTED: &[u8] = b"accepted impossible ";

// The answer to a rule.
pub(crate) const KEPT: &[u8] = b"kept";

pub(crate) const BROKEN: &[u8] = b"broken";

// The word of a rule.
pub(crate) const NEVER: &[u8] = b"never";

pub(crate) const SOME: &[u8] = b"some";
