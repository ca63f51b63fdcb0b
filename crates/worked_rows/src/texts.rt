use list_base::{Bytes, NoMemory, Seq};
use std::alloc::Global;

/// The text of a file, and the name by which rows ask for it.
#[derive(Drop)]
struct NamedText {
    name: Bytes,
    text: Bytes,
}

/// The texts that rows take from files, each once.
#[derive(Drop)]
pub(crate) struct Texts {
    texts: Seq<NamedText>,
}

impl Texts {
    /// No text was read yet.
    pub(crate) fn new(alloc: Global) -> Texts {
        Texts {
            texts: Seq::new(alloc),
        }
    }

    /// The text of the name, if it was read.
    pub(crate) fn find(&self, name: &[u8]) -> Option<&[u8]> {
        for text in self.texts.as_slice() {
            if text.name.as_slice() == name {
                return Some(text.text.as_slice());
            }
        }
        None
    }

    /// Keeps a text that was read.
    pub(crate) fn keep(&mut self, alloc: Global, name: &[u8], text: Bytes) -> Result<(), NoMemory> {
        let name = Bytes::from_slice(alloc, name)?;
        self.texts.push(NamedText { name, text })
    }
}

/// The name of the text that a line `@ NAME` stands for, and whether the text keeps its last line
/// end: a backslash after the name takes it away.
pub(crate) fn text_asked(line: &[u8]) -> Option<(&[u8], bool)> {
    let name = line.strip_prefix(b"@ ")?;
    match name.strip_suffix(b"\\") {
        Some(name) => Some((name, false)),
        None => Some((name, true)),
    }
}
