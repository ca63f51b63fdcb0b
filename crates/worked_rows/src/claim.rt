use super::answer::{Answer, LentAnswer, answer_to};
use super::question_claim::{is_shown, refuted_question};
use list_base::{Bytes, NoMemory};
use std::alloc::Global;
use std::sync::Wait;
use std::thread::Threads;
use text_lines::split_once;

/// The line before a run, after the input.
const RUN_PART: &[u8] = b"\n%% run\n";

/// What a claim is about, and what it says of that.
#[derive(Drop)]
struct Claim<'a> {
    about: Bytes,
    verdict: &'a [u8],
}

/// The claim of the line, about what the line of an accepted log names: `safety` for `safety safe`,
/// and `dead M` for `message M dead`.
fn claim_of<'a>(alloc: Global, line: &'a [u8]) -> Result<Claim<'a>, NoMemory> {
    let (about, verdict) = match line.strip_prefix(b"message ") {
        Some(rest) => {
            let (name, verdict) = split_once(rest, b' ');
            (joined(alloc, b"dead ", name)?, verdict)
        }
        None => {
            let (kind, verdict) = split_once(line, b' ');
            (Bytes::from_slice(alloc, kind)?, verdict)
        }
    };
    Ok(Claim {
        about,
        verdict: verdict.unwrap_or(b""),
    })
}

/// Whether the log is accepted for the claim; for an undecided one, whether all its steps resolve.
pub(crate) fn log_holds<H: Threads + Wait + Sync>(
    rt: &H,
    alloc: Global,
    name: &[u8],
    input: &[u8],
    claim: &[u8],
    block: &[u8],
) -> Result<bool, NoMemory> {
    let command = checker_of(alloc, claim, name)?;
    let part = b"\n%% log\n".as_slice();
    let answer = answer_with_part(rt, alloc, command.as_slice(), input, part, block)?;
    if claim.starts_with(b"undecided ") {
        return Ok(is_full(&answer));
    }
    match refuted_question(claim) {
        Some(question) => names_accepted(alloc, b"accepted impossible ", question, &answer),
        None => is_accepted(alloc, claim, &answer),
    }
}

/// The call that checks the logs for such a claim on the protocol of that name.
fn checker_of(alloc: Global, claim: &[u8], name: &[u8]) -> Result<Bytes, NoMemory> {
    if claim.starts_with(b"message ") {
        return joined(alloc, b"bspl check-dead ", name);
    }
    if claim.starts_with(b"undecided ") || refuted_question(claim).is_some() {
        let call = joined(alloc, b"bspl_more ask ", name)?;
        return joined(alloc, call.as_slice(), b" --check");
    }
    joined(alloc, b"bspl check ", name)
}

/// Whether this answer of the checker is the one for the claim.
fn is_accepted(alloc: Global, claim: &[u8], answer: &Answer) -> Result<bool, NoMemory> {
    let claim = claim_of(alloc, claim)?;
    if claim.verdict.starts_with(b"undecided ") {
        return Ok(is_full(answer));
    }
    names_accepted(alloc, b"accepted ", claim.about.as_slice(), answer)
}

/// Whether the answer of the checker is that each step resolves, and none derives the empty clause.
fn is_full(answer: &Answer) -> bool {
    is_answer(answer, b"1", b"rejected not-empty\n")
}

/// Whether the answer of the checker accepts the log, in these words, for what it is about.
fn names_accepted(
    alloc: Global,
    words: &[u8],
    about: &[u8],
    answer: &Answer,
) -> Result<bool, NoMemory> {
    let mut wanted = joined(alloc, words, about)?;
    wanted.push(b'\n')?;
    Ok(is_answer(answer, b"0", wanted.as_slice()))
}

/// Whether the answer has this status and this output.
fn is_answer(answer: &Answer, status: &[u8], output: &[u8]) -> bool {
    answer.lent().equals(LentAnswer { status, output })
}

/// Whether `replay` finds in the run what is claimed: the conflict, at these positions and the
/// second one last, or the parameter that stays unbound at the key of all ones. A run that answers a
/// question has to be legal; one of a message that is enacted also to end with the message.
pub(crate) fn run_holds<H: Threads + Wait + Sync>(
    rt: &H,
    alloc: Global,
    name: &[u8],
    input: &[u8],
    claim: &[u8],
    block: &[u8],
) -> Result<bool, NoMemory> {
    let command = joined(alloc, b"bspl replay ", name)?;
    let answer = answer_with_part(rt, alloc, command.as_slice(), input, RUN_PART, block)?;
    if answer.status.as_slice() != b"0".as_slice() {
        return Ok(false);
    }
    let report = answer.output.as_slice();
    if is_shown(claim) {
        return Ok(report.starts_with(b"legal "));
    }
    if let Some(message) = claim.strip_prefix(b"message ") {
        return Ok(report.starts_with(b"legal ") && ends_with(block, message));
    }
    is_found(alloc, claim, report)
}

/// Whether the last event of the block sends the message that the claim names first.
fn ends_with(block: &[u8], claim: &[u8]) -> bool {
    let events = block.strip_suffix(b"\nend\n").unwrap_or(block);
    let last = events.split(|b| *b == b'\n').last().unwrap_or(events);
    is_sent(last, split_once(claim, b' ').0)
}

/// Whether the line is that of an emission of the message.
fn is_sent(line: &[u8], name: &[u8]) -> bool {
    line.strip_prefix(b"send ")
        .is_some_and(|event| split_once(event, b' ').0 == name)
}

/// Whether this report of `replay` finds what is claimed.
fn is_found(alloc: Global, claim: &[u8], report: &[u8]) -> Result<bool, NoMemory> {
    if let Some(conflict) = claim.strip_prefix(b"safety unsafe ") {
        let wanted = conflict_report(alloc, conflict)?;
        return Ok(report.starts_with(wanted.as_slice()));
    }
    Ok(match claim.strip_prefix(b"liveness not-live ") {
        Some(param) => has_unbound(report, param),
        None => false,
    })
}

/// What `replay` reports first of a run that ends with the conflict.
fn conflict_report(alloc: Global, conflict: &[u8]) -> Result<Bytes, NoMemory> {
    let second = conflict.split(|b| *b == b' ').last().unwrap_or(conflict);
    let mut report = joined(alloc, b"legal ", second)?;
    push_conflict(&mut report, conflict)?;
    Ok(report)
}

/// Appends the line of the conflict, after the end of the line before it.
fn push_conflict(report: &mut Bytes, conflict: &[u8]) -> Result<(), NoMemory> {
    report.append(b"\nconflict ")?;
    report.append(conflict)?;
    report.push(b'\n')
}

/// Whether the report is on a legal run that leaves the parameter unbound where it is quiet.
fn has_unbound(report: &[u8], param: &[u8]) -> bool {
    report.starts_with(b"legal ")
        && report.split(|b| *b == b'\n').any(|line| line.starts_with(b"key 1 ")
            && is_unbound(line, param))
}

/// Whether the line says that a run is quiet and leaves the parameter unbound.
fn is_unbound(line: &[u8], param: &[u8]) -> bool {
    line.strip_suffix(param)
        .is_some_and(|front| front.ends_with(b" quiet unbound "))
}

/// The answer to a call over the input with a part after it.
fn answer_with_part<H: Threads + Wait + Sync>(
    rt: &H,
    alloc: Global,
    call: &[u8],
    input: &[u8],
    part_line: &[u8],
    part: &[u8],
) -> Result<Answer, NoMemory> {
    let mut text = joined(alloc, input, part_line)?;
    text.append(part)?;
    answer_to(rt, alloc, call, text.as_slice())
}

/// Both texts, one after the other.
fn joined(alloc: Global, first: &[u8], second: &[u8]) -> Result<Bytes, NoMemory> {
    let mut text = Bytes::from_slice(alloc, first)?;
    text.append(second)?;
    Ok(text)
}
