/// The question that the log behind the line refutes, where the line answers a question or a rule.
pub(crate) fn refuted_question(line: &[u8]) -> Option<&[u8]> {
    line.strip_prefix(b"impossible ")
        .or(line.strip_prefix(b"kept never "))
        .or(line.strip_prefix(b"broken some "))
}

/// Whether the run behind the line answers a question or a rule.
pub(crate) fn is_shown(line: &[u8]) -> bool {
    line.starts_with(b"possible ")
        || line.starts_with(b"kept some ")
        || line.starts_with(b"broken never ")
}
