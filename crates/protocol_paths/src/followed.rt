/// Which protocols are followed, by their numbers: the others are skipped.
#[derive(Drop)]
pub struct Followed<'a> {
    /// Whether a path from the protocol leads to a message.
    pub messages: &'a [bool],
    /// Whether a path from the protocol leads to a private parameter.
    pub privates: &'a [bool],
}
