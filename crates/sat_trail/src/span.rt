/// Where the literals of a clause lie in the list of all literals, in eight bytes. The span of a
/// clause that was removed ends before it starts.
#[derive(Clone, Copy, Debug)]
pub struct Span {
    /// The position of the first literal.
    pub start: u32,
    /// The position after the last literal.
    pub end: u32,
}
