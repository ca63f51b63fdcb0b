ghost use Rattle.std.specs.Prelude.{◌≡◌, ℕ, List, Option, IfOk};
ghost use Rattle.bspl_types.specs.Limits.{input_limit};
ghost use Rattle.program_frame.specs.Prepared.{AreReadsCounted};
ghost use Rattle.program_frame.specs.declared.ending.Ending.TheVariants.{ReadFault};
ghost use Rattle.program_frame.specs.declared.prepared.Prepared.TheVariants.{Ended};
ghost use Rattle.tool_input.specs.Rejection.{lacks_part, over_limit, rejection_line};
ghost use Rattle.tool_input.specs.declared.parts.Part.TheVariants.{Wire};
ghost use Rattle.tool_input.specs.declared.status.Status.TheVariants.{Refused};
ghost use Rattle.live_role.specs.Journal.{journals_at};
ghost use Rattle.live_role.specs.Opening.{TakesOpening};
ghost use Rattle.live_role.specs.RefusedJournal.{journal_line};
ghost use Rattle.live_role.specs.inner.Judged.{IsReply};
ghost use Rattle.live_role.specs.inner.Prepared.{HasNoFault, IsPrepared, prepared_of};
ghost use Rattle.live_role.specs.inner.Request.{request_said};

use super::begun::{Begun, Unbegun, begin_role};
use super::journal_refusal::{JournalRefusal, journal_line};
use super::journals::Journals;
use super::judged::{Judged, judge};
use super::reading::{Opened, read_opening};
use super::request::Request;
use bspl_io::{ReadRefusal, Source};
use list_base::NoMemory;
use program_frame::{Ending, Prepared, Reply};
use std::alloc::Global;
use tool_input::{INPUT_LIMIT, InputRefusal, Part, Status, input_rejection, refused};

/// Reads up to the line `%% wire`, judges what stands before it, and opens the journal. A role that
/// is served begins so, and with the bytes that were taken ahead.
pub fn prepare<F: Journals, R: Source>(
    alloc: Global,
    request: &Request<'_>,
    journals: &F,
    input: &mut R,
) -> Prepared<Begun<F::Kept>, Status>
    ensures known { IsPrepared (journals_at F.finds F.refuses F.Kept.kept F.is_synced journals.now)
        (request_said request.now) (R.remaining input.old) (R.remaining input.new) result }
    ensures faults { AreReadsCounted (R.faults input.old) (R.faults input.new) result }
    ensures unfailed { HasNoFault F.Kept.faults result }
{
    let opened = match read_opening(alloc, input) {
        Ok(Some(opened)) => opened,
        Ok(None) => return replied(no_line(alloc)),
        Err(ReadRefusal::TooLong) => return replied(too_long(alloc)),
        Err(ReadRefusal::ReadFault) => return Prepared::Ended(Ending::ReadFault),
        Err(ReadRefusal::NoMemory) => return Prepared::Ended(Ending::NoMemory),
    };
    judged_role(alloc, request, journals, opened)
}

/// Judges what stands before the line, and opens the journal.
fn judged_role<F: Journals>(
    alloc: Global,
    request: &Request<'_>,
    journals: &F,
    opened: Opened,
) -> Prepared<Begun<F::Kept>, Status>
    ensures known { (old new : Option (List ℕ)) → TakesOpening opened.text opened.ahead old new →
        IsPrepared (journals_at F.finds F.refuses F.Kept.kept F.is_synced journals.now)
        (request_said request.now) old new result }
    ensures no_read { ¬ (result ≡ Ended ReadFault) }
    ensures unfailed { HasNoFault F.Kept.faults result }
{
    let (protocol, role) = match judge(alloc, request, opened.text.as_slice()) {
        Ok(Judged::Accepted { protocol, role }) => (protocol, role),
        Ok(Judged::Declined(reply)) => return Prepared::Replied(reply),
        Err(NoMemory) => return Prepared::Ended(Ending::NoMemory),
    };
    match begin_role(alloc, journals, request.journal, &protocol, role) {
        Ok(begun) => Prepared::Read {
            request: begun,
            input: opened.ahead,
        },
        Err(Unbegun::Refused(refusal)) => replied(unopened(alloc, refusal)),
        Err(Unbegun::NoMemory) => Prepared::Ended(Ending::NoMemory),
    }
}

/// The reply that was made. Without one memory ran out.
fn replied<J>(made: Result<Reply<Status>, NoMemory>) -> Prepared<Begun<J>, Status>
    ensures { result ≡ prepared_of made }
{
    match made {
        Ok(reply) => Prepared::Replied(reply),
        Err(NoMemory) => Prepared::Ended(Ending::NoMemory),
    }
}

/// The reply where the journal is refused.
fn unopened(alloc: Global, refusal: JournalRefusal) -> Result<Reply<Status>, NoMemory>
    ensures { IfOk result (IsReply (journal_line refusal) Refused) }
{
    Ok(Reply {
        status: Status::Refused,
        text: journal_line(alloc, refusal)?,
    })
}

/// The reply to an input that ends before the line `%% wire`.
fn no_line(alloc: Global) -> Result<Reply<Status>, NoMemory>
    ensures { IfOk result (IsReply (rejection_line (lacks_part Wire)) Refused) }
{
    let rejection = input_rejection(InputRefusal::NoPart { part: Part::Wire });
    refused(alloc, &rejection)
}

/// The reply to an input that has too many bytes before the line `%% wire`.
fn too_long(alloc: Global) -> Result<Reply<Status>, NoMemory>
    ensures { IfOk result (IsReply (rejection_line (over_limit input_limit)) Refused) }
{
    let rejection = input_rejection(InputRefusal::TooLong { limit: INPUT_LIMIT });
    refused(alloc, &rejection)
}
