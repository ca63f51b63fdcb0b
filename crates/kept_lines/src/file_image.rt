ghost use Rattle.kept_lines.specs.FileKind.{IsOfKind};

use super::half_written::is_half_written;
use super::text::text_len;

/// What a file is to a journal that begins with a head.
#[derive(Clone, Copy, Debug, PartialEq, Eq)]
pub enum FileKind {
    /// Its text begins with the head.
    Journal,
    /// It is what a crash may leave while the head is written into an empty file.
    Unmade,
    /// It is something else, which is to be left alone.
    Other,
}

/// What a file with this image is to a journal that begins with the head. For a file without text
/// only the whole image tells that nothing else is in it: a file that begins with a 0, or has no
/// LF, need not be a new journal.
#[tactic(auto, using(crate::proofs::KindLemmas::told_head))]
pub fn file_kind(head: &[u8], image: &[u8]) -> FileKind
    ensures { IsOfKind head.now image.now result }
{
    if image[..text_len(image)].starts_with(head) {
        return FileKind::Journal;
    }
    if is_half_written(head, image) {
        return FileKind::Unmade;
    }
    FileKind::Other
}
