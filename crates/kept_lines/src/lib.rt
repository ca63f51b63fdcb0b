//! Lines that a journal keeps before their replies are written.
#![tactic(auto)]

mod answer;
mod batch;
mod file_head;
mod file_image;
mod file_journal;
mod half_written;
mod journal;
mod kept_text;
mod laws;
mod line_file;
mod memory;
mod no_journal;
mod open_refusal;
mod opened_journal;
mod opening;
mod responder;
mod stream;
mod stream_refusal;
mod text;

pub use answer::{AnswerRefusal, keep_and_write};
pub use file_head::ensure_head;
pub use file_image::{FileKind, file_kind};
pub use file_journal::FileJournal;
pub use half_written::is_half_written;
pub use journal::Journal;
pub use kept_text::{RestoreRefusal, restore};
pub use laws::{answers_join, crash_leaves_lines, kept_lines_replay, lines_join};
pub use line_file::LineFile;
pub use memory::MemJournal;
pub use no_journal::NoJournal;
pub use open_refusal::OpenRefusal;
pub use opened_journal::OpenedJournal;
pub use opening::open_journal;
pub use responder::Responder;
pub use stream::answer_stream;
pub use stream_refusal::StreamRefusal;
pub use text::text_len;
