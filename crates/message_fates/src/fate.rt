/// What becomes of a message in the legal runs of its protocol.
#[derive(Clone, Copy, Debug, PartialEq, Eq)]
pub enum Fate {
    /// Some legal run sends it.
    Sent,
    /// No legal run does.
    Dead,
    /// The search came to no answer.
    Undecided,
}
