ghost use Rattle.std.specs.Prelude.{ℕ, List, IfOk, MatchOption};
ghost use Rattle.enactment_model.specs.Safety.{SafeProtocol};
ghost use Rattle.tool_input.specs.Input.{Declares};
ghost use Rattle.live_role.specs.Judgement.{IsNotFoundSafe};
ghost use Rattle.live_role.specs.inner.Judged.{IsJudged};
ghost use Rattle.live_role.specs.inner.Request.{request_said};

use super::request::Request;
use bspl_types::Admitted;
use list_base::NoMemory;
use program_frame::Reply;
use report::{right_runs_fit, verdict_status, verdict_text};
use std::alloc::Global;
use tool_input::{Status, declared_protocol, refused, text_rejection, unknown_role};
use verdict::{Safety, verify};

/// How many conflicts the search for each verdict may meet.
const CONFLICTS: u32 = 10_000;

/// What becomes of a role once the text of its protocol is there.
#[derive(Drop)]
pub enum Judged {
    /// It is not served, and this is answered.
    Declined(Reply<Status>),
    /// It is this role of this protocol, and is served if its journal can be opened.
    Accepted { protocol: Admitted, role: u32 },
}

/// Judges the text, then the name of the role, and then, if it is asked for, the protocol.
pub fn judge(alloc: Global, request: &Request<'_>, text: &[u8]) -> Result<Judged, NoMemory>
    ensures { IfOk result (IsJudged (request_said request.now) text.now) }
{
    match declared_protocol(alloc, request.name, text) {
        Ok(protocol) => judge_role(alloc, request, protocol),
        Err(refusal) => match text_rejection(refusal) {
            Some(rejection) => Ok(Judged::Declined(refused(alloc, &rejection)?)),
            None => Err(NoMemory),
        },
    }
}

/// Judges the name of the role, and then, if it is asked for, the protocol.
fn judge_role(alloc: Global, request: &Request<'_>, protocol: Admitted) -> Result<Judged, NoMemory>
    ensures { (text : List ℕ) → Declares request.now.name.now text protocol →
        IfOk result (IsJudged (request_said request.now) text) }
{
    let Some(role) = protocol.expanded().role_named(request.role) else {
        return Ok(Judged::Declined(refused(alloc, &unknown_role())?));
    };
    if !request.checked {
        return Ok(Judged::Accepted { protocol, role });
    }
    match unsafe_reply(alloc, &protocol)? {
        Some(reply) => Ok(Judged::Declined(reply)),
        None => Ok(Judged::Accepted { protocol, role }),
    }
}

/// The reply on a protocol that is not found safe.
fn unsafe_reply(alloc: Global, a: &Admitted) -> Result<Option<Reply<Status>>, NoMemory>
    ensures { IfOk result (λ found. MatchOption found
        (SafeProtocol a.now)
        (λ reply. IsNotFoundSafe a.now reply.text reply.status)) }
{
    // law: the runs of right verdicts fit the protocol
    right_runs_fit();
    let verdicts = verify(alloc, a, CONFLICTS)?;
    if let Safety::Safe(_) = verdicts.safety {
        return Ok(None);
    }
    Ok(Some(Reply {
        status: verdict_status(&verdicts),
        text: verdict_text(alloc, a, &verdicts, true)?,
    }))
}
