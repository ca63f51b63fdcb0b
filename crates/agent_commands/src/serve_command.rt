ghost use Rattle.std.specs.Prelude.{◌≡◌, ◌≤◌, ◌<◌, ℕ, [], List, length, IfErr, IfOk, IfSome};
ghost use Rattle.std.specs.Prelude.{MatchOption, OnOk};
ghost use Rattle.bspl_types.specs.Limits.{input_limit};
ghost use Rattle.role_server.specs.Served.{first_store};
ghost use Rattle.tool_input.specs.Error.{RejectsFor};
ghost use Rattle.agent_commands.specs.ServeAnswer.{AreReplies, IsServeAnswer, IsServeRefused};
ghost use Rattle.agent_commands.specs.ServeAnswer.{OpensRole};
ghost use Rattle.agent_commands.specs.inner.Serve.{IsRoleOf};

use super::wording::ROLE;
use bspl_io::{PlainSink, PlainSource};
use bspl_types::{Admitted, Bytes, Expanded, NoMemory};
use local_store::Store;
use program_frame::Reply;
use role_server::{ServeRefusal, serve_from, store_with_room};
use run_text::names_are_fields;
use std::alloc::Global;
use text_lines::split_once;
use tool_input::{AnswerError, Status, unknown_role};

/// Answers `serve`: the first line of the part names a role, and each line after it gets its reply.
pub fn serve(alloc: Global, protocol: &Admitted, part: &[u8]) -> Result<Reply<Status>, AnswerError>
    requires { length part.now ≤ input_limit }
    ensures ok { IfOk result (λ reply.
        IsServeAnswer protocol.now part.now reply.text reply.status) }
    ensures refused { IfErr result (RejectsFor (IsServeRefused protocol.now part.now)) }
{
    match opened_role(protocol.expanded(), part) {
        Some((role, lines)) => Ok(Reply {
            status: Status::Done,
            text: replies_to(alloc, protocol, role, lines)?,
        }),
        None => Err(AnswerError::Rejected(unknown_role())),
    }
}

/// The role that the first line names, and the bytes after that line.
fn opened_role<'a>(x: &Expanded, part: &'a [u8]) -> Option<(u32, &'a [u8])>
    ensures role { MatchOption result
        ((role : ℕ) (lines : List ℕ) → ¬ OpensRole x.now part.now role lines)
        (λ found. OpensRole x.now part.now found.0 found.1.now) }
    ensures within { IfSome result (λ found. length found.1.now ≤ length part.now) }
{
    // law: the name of a role has no LF
    names_are_fields();
    let (first, after) = split_once(part, b'\n');
    let lines = after?;
    let role = role_of_line(x, first)?;
    Some((role, lines))
}

/// The role that the line names, which lacks its LF.
fn role_of_line(x: &Expanded, first: &[u8]) -> Option<u32>
    ensures { MatchOption result
        ((role : ℕ) → ¬ IsRoleOf x.now first.now role) (IsRoleOf x.now first.now) }
{
    let name = first.strip_prefix(ROLE)?;
    let role = x.role_named(name)?;
    Some(role)
}

/// The replies to the lines, from a new store of the role.
fn replies_to(
    alloc: Global,
    protocol: &Admitted,
    role: u32,
    lines: &[u8],
) -> Result<Bytes, NoMemory>
    requires known { role < length protocol.now.roles }
    requires short { length lines.now ≤ input_limit }
    ensures { IfOk result (AreReplies (first_store protocol.now role) lines.now) }
{
    let store = store_with_room(alloc, protocol, role)?;
    let mut replies = PlainSink::new(alloc);
    serve_lines(alloc, store, lines, &mut replies)?;
    Bytes::from_slice(alloc, replies.written())
}

/// Writes the replies to the lines. A source and a sink in memory never fail, and no more lines come
/// than may come.
fn serve_lines(
    alloc: Global,
    store: Store,
    lines: &[u8],
    replies: &mut PlainSink,
) -> Result<(), NoMemory>
    requires short { length lines.now ≤ input_limit }
    requires empty { replies.old ≡ [] }
    ensures { OnOk result (AreReplies store lines.now replies.new) }
{
    let mut nothing = PlainSource::new(Bytes::new(alloc));
    match serve_from(alloc, store, lines, &mut nothing, replies) {
        Ok(_) => Ok(()),
        Err(ServeRefusal::NoMemory) => Err(NoMemory),
        Err(ServeRefusal::ReadFault) => unreachable!(),
        Err(ServeRefusal::WriteFault) => unreachable!(),
        Err(ServeRefusal::TooLong) => unreachable!(),
    }
}
