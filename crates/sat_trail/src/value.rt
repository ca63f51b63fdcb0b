/// The value of a literal, in one byte.
#[derive(Clone, Copy, Debug, PartialEq, Eq)]
pub enum Value {
    /// It has none.
    Unset,
    /// It is false.
    False,
    /// It is true.
    True,
}
