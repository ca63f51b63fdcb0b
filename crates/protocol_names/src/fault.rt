/// What is wrong with a name. Of two faults at one offset the kind that is listed first counts.
#[derive(Clone, Copy, Debug, PartialEq, Eq)]
pub enum FaultKind {
    /// An equal name is declared before.
    Duplicate,
    /// The name is not declared.
    Unknown,
    /// A reference has another number of roles or of parameters than declared.
    Arity,
    /// `any` or `opt`, or another adornment in a reference than declared.
    BadAdornment,
    /// The word `key` on a name that is not declared as a key.
    ForeignKey,
}

/// A fault, and its offset in the text.
#[derive(Clone, Copy, Debug, PartialEq, Eq)]
pub struct DocumentFault {
    /// What is wrong.
    pub kind: FaultKind,
    /// Where the word at fault begins, in bytes.
    pub offset: u64,
}
