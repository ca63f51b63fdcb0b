ghost use Rattle.std.specs.Prelude.{◌↔◌, IfOk, IsTrue, List, ℕ, map, string_bytes};
ghost use Rattle.agent_commands.specs.Answer.{Completes, IsPlayable};
ghost use Rattle.program_frame.specs.Call.{AreCounted};
ghost use Rattle.program_frame.specs.Program.{IsRequested};
ghost use Rattle.tool_input.specs.Call.{IsToolCall, fault_counts, traffic_of};
ghost use Rattle.bspl_tool.specs.Headline.{TrueWhereSaid};
ghost use Rattle.bspl_tool.specs.Interface.{IsToolRequest, tool_interface};
ghost use Rattle.bspl_tool.specs.Request.{IsThreaded};
ghost use Rattle.bspl_tool.specs.inner.Completed.{IsCompleted};

use super::laws::calls_are_true;
use super::question::ToolQuestion;
use adapter::Gate;
use agent_commands::{Answer, finish, finish_in_threads};
use bspl_io::{Sink, Source};
use bspl_types::NoMemory;
use command_line::one_line;
use program_frame::{Ending, Prepared, Reply, halves_are_calls, prepare, serve, write_reply};
use std::alloc::Global;
use std::sync::Wait;
use std::thread::Threads;
use tool_input::{Request, Status};

/// Reads what the arguments request, and writes the answer. Agents play in the threads that the
/// arguments ask for, and each of their turns calls the gate.
pub fn bspl<H: Threads + Wait + Sync, R: Source, W: Sink, G: Gate + Sync>(
    rt: &H,
    alloc: Global,
    args: &[String],
    input: &mut R,
    output: &mut W,
    gate: &G,
) -> Ending<Status>
    ensures call { IsToolCall tool_interface (map string_bytes args.now) (traffic_of
        (R.remaining input.old) (R.remaining input.new)
        (W.contents output.old) (W.contents output.new)) result }
    ensures faults { AreCounted (fault_counts
        (R.faults input.old) (R.faults input.new)
        (W.faults output.old) (W.faults output.new)) result }

    // The headline: `safety safe` is written only of a protocol that is safe in every legal run,
    // `liveness live` only of one that binds what is public wherever a legal run is quiet.
    ensures headline { TrueWhereSaid (map string_bytes args.now) (traffic_of
        (R.remaining input.old) (R.remaining input.new)
        (W.contents output.old) (W.contents output.new)) }
{
    // law: what a call writes claims only what is true
    calls_are_true();
    // law: what is prepared and then goes on is a call
    halves_are_calls::<Request<'_, ToolQuestion<'_>>>();
    match prepare::<Request<'_, ToolQuestion<'_>>, R>(alloc, args, input) {
        Prepared::Replied(reply) => write_reply(Ok(reply), output),
        Prepared::Read { request, input } => {
            let answer = request.answer(alloc, input.as_slice());
            write_reply(completed(rt, alloc, &request, answer, gate), output)
        }
        Prepared::Ended(ending) => ending,
    }
}

/// The reply that the answer to the request comes to. The runtime is used only for arguments that
/// ask for threads.
fn completed<'a, H: Threads + Wait + Sync, G: Gate + Sync>(
    rt: &H,
    alloc: Global,
    request: &Request<'a, ToolQuestion<'a>>,
    answer: Result<Answer, NoMemory>,
    gate: &G,
) -> Result<Reply<Status>, NoMemory>
    requires known { IsRequested IsToolRequest request.now }
    requires playable { IfOk answer IsPlayable }
    ensures { IfOk result (λ reply. IsCompleted answer reply) }
{
    let answer = answer?;
    if is_threaded(request) {
        finish_in_threads(rt, alloc, answer, gate)
    } else {
        finish_alone(alloc, request, answer)
    }
}

/// Whether the arguments ask for threads.
fn is_threaded<'a>(request: &Request<'a, ToolQuestion<'a>>) -> bool
    ensures { (args : List (List ℕ)) → IsToolRequest args request.now →
        (IsTrue result ↔ IsThreaded args) }
{
    // law: arguments are one command line at most
    one_line();
    match request.asked() {
        Some(question) => question.task.is_threaded(),
        None => false,
    }
}

/// The reply that the answer comes to, for arguments that ask for no threads.
fn finish_alone<'a>(
    alloc: Global,
    _request: &Request<'a, ToolQuestion<'a>>,
    answer: Answer,
) -> Result<Reply<Status>, NoMemory>
    requires playable { IsPlayable answer }
    requires alone { (args : List (List ℕ)) → IsToolRequest args _request.now → ¬ IsThreaded args }
    ensures { IfOk result (λ reply. Completes answer reply.text reply.status) }
{
    finish(alloc, answer)
}

/// The call for arguments that ask for no threads. It takes no runtime and waits for nobody.
pub fn bspl_alone<R: Source, W: Sink>(
    alloc: Global,
    args: &[String],
    input: &mut R,
    output: &mut W,
) -> Ending<Status>
    requires { ¬ IsThreaded (map string_bytes args.now) }
    ensures call { IsToolCall tool_interface (map string_bytes args.now) (traffic_of
        (R.remaining input.old) (R.remaining input.new)
        (W.contents output.old) (W.contents output.new)) result }
    ensures faults { AreCounted (fault_counts
        (R.faults input.old) (R.faults input.new)
        (W.faults output.old) (W.faults output.new)) result }
    ensures headline { TrueWhereSaid (map string_bytes args.now) (traffic_of
        (R.remaining input.old) (R.remaining input.new)
        (W.contents output.old) (W.contents output.new)) }
{
    // law: what a call writes claims only what is true
    calls_are_true();
    serve::<Request<'_, ToolQuestion<'_>>, R, W>(alloc, args, input, output)
}
