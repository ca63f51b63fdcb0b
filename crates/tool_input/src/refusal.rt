use super::parts::Part;
use std::fmt::{self, Debug, Display, Formatter, Write};
use thiserror::Error;

/// Why an input as a whole is refused.
#[derive(Drop, Error)]
pub enum InputRefusal {
    /// The command needs a part, and the first part line does not begin it.
    #[error("the input has no such part")]
    NoPart { part: Part },
    /// The input has more bytes than may be read.
    #[error("the input has more than {limit} bytes")]
    TooLong { limit: u64 },
}

impl Debug for InputRefusal {
    fn fmt<W: Write>(&self, f: &mut Formatter<W>) -> fmt::Result {
        Display::fmt(self, f)
    }
}
