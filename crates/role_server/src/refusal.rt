ghost use Rattle.std.specs.Prelude.{◌≡◌, ◌≢◌};
ghost use Rattle.kept_lines.specs.declared.stream_refusal.StreamRefusal.TheVariants.{JournalFault};
ghost use Rattle.role_server.specs.Stream.{stream_end};

use kept_lines::StreamRefusal;
use list_base::NoMemory;

/// Why a stream was not served to its end.
#[derive(Clone, Copy, Debug, PartialEq, Eq)]
pub enum ServeRefusal {
    /// Reading failed, and was counted. Each line that had come whole has its reply.
    ReadFault,
    /// Writing failed, and was counted. The replies are cut short.
    WriteFault,
    /// More bytes came than may come.
    TooLong,
    /// Memory ran out. The replies are cut short.
    NoMemory,
}

impl From<NoMemory> for ServeRefusal {
    ghost use Rattle.std.specs.Prelude.{◌≡◌};
    ghost use Rattle.role_server.specs.declared.refusal.ServeRefusal.TheVariants.{NoMemory};

    ghost from_gives = { λ _ refusal. refusal ≡ NoMemory };

    fn from(_error: NoMemory) -> ServeRefusal {
        ServeRefusal::NoMemory
    }
}

/// The refusal of a stream without a journal.
pub(crate) fn serve_refusal(refusal: StreamRefusal) -> ServeRefusal
    requires { refusal ≢ JournalFault }
    ensures { stream_end result ≡ refusal }
{
    match refusal {
        StreamRefusal::ReadFault => ServeRefusal::ReadFault,
        StreamRefusal::JournalFault => unreachable!(),
        StreamRefusal::WriteFault => ServeRefusal::WriteFault,
        StreamRefusal::TooLong => ServeRefusal::TooLong,
        StreamRefusal::NoMemory => ServeRefusal::NoMemory,
    }
}
