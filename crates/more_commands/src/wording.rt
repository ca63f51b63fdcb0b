//! What a user writes and reads of these commands, word for word.

pub(crate) mod answers;
pub(crate) mod question_words;

/// The line for arguments that request nothing.
pub(crate) const USAGE: &[u8] =
    b"usage: bspl_more COMMAND NAME ..: ask NAME QUESTION [--brief] [--conflicts N] | \
ask NAME --check | ask NAME --all [--brief] [--conflicts N] | formula NAME safety|liveness|dead MESSAGE|ask QUESTION | lrat NAME | page NAME | explain COMMAND NAME ..\n";

// The words of the commands.
pub(crate) const ASK: &[u8] = b"ask";

pub(crate) const FORMULA: &[u8] = b"formula";

pub(crate) const LRAT: &[u8] = b"lrat";

pub(crate) const PAGE: &[u8] = b"page";

pub(crate) const EXPLAIN: &[u8] = b"explain";

// The words for formulas.
pub(crate) const SAFETY: &[u8] = b"safety";

pub(crate) const LIVENESS: &[u8] = b"liveness";

pub(crate) const DEAD: &[u8] = b"dead";
