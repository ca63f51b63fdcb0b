//! What the tool says, word for word.

// The line for arguments that request no task.
pub(crate) const USAGE: &[u8] =
    b"usage: bspl COMMAND NAME [--brief] [--conflicts N] [--threads N]\n";

// The name of each protocol that is generated.
pub(crate) const STAGE: &[u8] = b"Stage";
