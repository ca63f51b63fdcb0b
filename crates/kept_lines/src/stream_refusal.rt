use super::answer::AnswerRefusal;
use bspl_io::Failed;

/// Why the lines of a stream were not answered to the end.
#[derive(Clone, Copy, Debug, PartialEq, Eq)]
pub enum StreamRefusal {
    /// Reading failed, and was counted. Each line that had come whole has its reply.
    ReadFault,
    /// Keeping failed, and was counted. Each line that has a reply is kept, if it is to be.
    JournalFault,
    /// Writing failed, and was counted. The replies are cut short.
    WriteFault,
    /// More bytes came than may come.
    TooLong,
    /// Memory ran out. The replies are cut short.
    NoMemory,
}

impl From<Failed> for StreamRefusal {
    ghost use Rattle.std.specs.Prelude.{◌≡◌};
    ghost use Rattle.kept_lines.specs.declared.stream_refusal.StreamRefusal.TheVariants.{ReadFault};

    ghost from_gives = { λ _ refusal. refusal ≡ ReadFault };

    fn from(_failed: Failed) -> StreamRefusal {
        StreamRefusal::ReadFault
    }
}

impl From<AnswerRefusal> for StreamRefusal {
    ghost use Rattle.std.specs.Prelude.{◌≡◌};
    ghost use Rattle.kept_lines.specs.StreamEnd.{stream_refusal};

    ghost from_gives = { λ answer refusal. refusal ≡ stream_refusal answer };

    fn from(refusal: AnswerRefusal) -> StreamRefusal {
        match refusal {
            AnswerRefusal::JournalFault => StreamRefusal::JournalFault,
            AnswerRefusal::WriteFault => StreamRefusal::WriteFault,
            AnswerRefusal::NoMemory => StreamRefusal::NoMemory,
        }
    }
}
