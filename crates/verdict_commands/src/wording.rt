//! What a line says of a message, word for word.

pub(crate) const MESSAGE: &[u8] = b"message ";

// No legal run emits it, some legal run does, or the search came to its budget after so many steps.
pub(crate) const DEAD: &[u8] = b" dead";

pub(crate) const ENACTED: &[u8] = b" enacted";

pub(crate) const UNDECIDED: &[u8] = b" undecided ";
