ghost use Rattle.std.specs.Prelude.{◌≡◌, map, string_bytes, IfOk};
ghost use Rattle.tool_input.specs.declared.status.Status.TheVariants.{Usage};
ghost use Rattle.live_role.specs.Call.{IsRoleCall, NamesRoleFault, role_usage};
ghost use Rattle.live_role.specs.Journal.{faults_by, journals_at};
ghost use Rattle.live_role.specs.Serving.{serving_ending};
ghost use Rattle.live_role.specs.declared.role_end.RoleEnding.TheVariants.{Ended};
ghost use Rattle.live_role.specs.declared.journal_choice.RoleJournal.TheVariants.{Unkept};
ghost use Rattle.live_role.specs.inner.Judged.{IsReply};

use super::journal_choice::RoleJournal;
use super::journals::Journals;
use super::prepared::prepare;
use super::request::request_of;
use super::role_end::{RoleEnd, RoleEnding};
use bspl_io::{Sink, Source};
use kept_lines::{StreamRefusal, answer_stream};
use list_base::{Bytes, NoMemory};
use program_frame::{Ending, Prepared, Reply, write_reply};
use role_questions::AskedRole;
use std::alloc::Global;
use tool_input::Status;

/// The most bytes that may come once the role is served. No input has as many, so that a role is
/// served until its input ends.
const STREAM_LIMIT: u64 = u64::MAX;

/// Reads a protocol, and serves the role of it that the arguments name: each line is answered as
/// soon as it is whole. With a journal the role begins with the events that the journal has, and
/// each line that makes an event is kept before its reply is written.
pub fn bspl_role<F: Journals, R: Source, W: Sink>(
    alloc: Global,
    args: &[String],
    journals: &F,
    input: &mut R,
    output: &mut W,
) -> RoleEnd<F::Kept>
    ensures call { IsRoleCall (journals_at F.finds F.refuses F.Kept.kept F.is_synced journals.now)
        (map string_bytes args.now) (record {
          remaining = R.remaining input.old;
          remaining_after = R.remaining input.new;
          contents = W.contents output.old;
          contents_after = W.contents output.new;
        }) result }
    ensures faults { NamesRoleFault (record {
      reads = R.faults input.old;
      reads_after = R.faults input.new;
      writes = W.faults output.old;
      writes_after = W.faults output.new;
      keeps = 0;
      keeps_after = faults_by F.Kept.faults result.journal;
    }) result.ending }
{
    let Some(request) = request_of(args) else {
        return unserved(write_reply(usage(alloc), output));
    };
    let (begun, ahead) = match prepare(alloc, &request, journals, input) {
        Prepared::Read { request, input } => (request, input),
        Prepared::Replied(reply) => return unserved(write_reply(Ok(reply), output)),
        Prepared::Ended(ending) => return unserved(ending),
    };
    let mut journal = begun.journal;
    let served = answer_stream(
        alloc,
        begun.role,
        ahead.as_slice(),
        STREAM_LIMIT,
        &mut journal,
        input,
        output,
    );
    RoleEnd {
        ending: ending_of(served),
        journal,
    }
}

/// A call without a role that is served.
fn unserved<J>(ending: Ending<Status>) -> RoleEnd<J>
    ensures { result ≡ record { ending = Ended ending; journal = Unkept } }
{
    RoleEnd {
        ending: RoleEnding::Ended(ending),
        journal: RoleJournal::Unkept,
    }
}

/// The reply to invalid arguments.
fn usage(alloc: Global) -> Result<Reply<Status>, NoMemory>
    ensures { IfOk result (IsReply role_usage Usage) }
{
    let text = b"usage: bspl_role NAME ROLE [--unchecked] [--journal FILE [--no-sync]]\n";
    Ok(Reply {
        status: Status::Usage,
        text: Bytes::from_slice(alloc, text)?,
    })
}

/// How the program ends after it has served.
fn ending_of(served: Result<AskedRole, StreamRefusal>) -> RoleEnding
    ensures { result ≡ serving_ending served }
{
    match served {
        Ok(_) => RoleEnding::Ended(Ending::Answered(Status::Done)),
        Err(StreamRefusal::ReadFault) => RoleEnding::Ended(Ending::ReadFault),
        Err(StreamRefusal::JournalFault) => RoleEnding::NotKept,
        Err(StreamRefusal::WriteFault) => RoleEnding::Ended(Ending::WriteFault),
        Err(StreamRefusal::TooLong) => RoleEnding::Ended(Ending::Answered(Status::Refused)),
        Err(StreamRefusal::NoMemory) => RoleEnding::Ended(Ending::NoMemory),
    }
}
