ghost use Rattle.std.specs.Prelude.{◌≡◌, ◌≤◌, ℕ, List, length, IfOk};
ghost use Rattle.bspl_types.specs.Limits.{input_limit};
ghost use Rattle.dimacs.specs.Dimacs.{clause_limit};
ghost use Rattle.dimacs.specs.Verdict.{IsFormulaOf};
ghost use Rattle.tool_input.specs.Rejection.{over_limit, rejection_line};
ghost use Rattle.tool_input.specs.declared.status.Status.TheVariants.{Refused, Usage};
ghost use Rattle.formula_check.specs.Output.{CheckOutput, check_usage};
ghost use Rattle.formula_check.specs.Request.{HasNoArgument};
ghost use Rattle.formula_check.specs.inner.Reply.{IsPartReply, IsRefusal, IsReply};

use super::answer::log_answer;
use clause_core::Formula;
use dimacs::{Refusal, formula_of, formulas_are_as_written, refused_line};
use list_base::{Bytes, NoMemory};
use program_frame::Reply;
use refutation_log::{read_log, steps_are_fewer_than_bytes};
use rejections::log_rejection;
use std::alloc::Global;
use tool_input::{
    INPUT_LIMIT, InputRefusal, Part, Rejection, Status, input_rejection, needed_part,
    protocol_text, refused,
};

/// The reply to invalid arguments.
pub(crate) fn usage(alloc: Global) -> Result<Reply<Status>, NoMemory>
    ensures { IfOk result (IsReply check_usage Usage) }
{
    Ok(Reply {
        status: Status::Usage,
        text: Bytes::from_slice(alloc, b"usage: dimacs_check\n")?,
    })
}

/// The reply to an input that is too long.
pub(crate) fn too_long(alloc: Global) -> Result<Reply<Status>, NoMemory>
    ensures { IfOk result (IsReply (rejection_line (over_limit input_limit)) Refused) }
{
    let rejection = input_rejection(InputRefusal::TooLong { limit: INPUT_LIMIT });
    refused(alloc, &rejection)
}

/// The reply to an input that is not too long. The part is judged first, then the text before it,
/// and then the log's text.
pub(crate) fn check_reply(alloc: Global, input: &[u8]) -> Result<Reply<Status>, NoMemory>
    requires { length input.now ≤ input_limit }
    ensures { (args : List (List ℕ)) → HasNoArgument args →
        IfOk result (λ reply. CheckOutput args input.now reply.text reply.status) }
{
    // law: the formula of a text has few clauses
    formulas_are_as_written();
    let part = match needed_part(Some(Part::Log), input) {
        Ok(part) => part,
        Err(refusal) => return refused_for(alloc, Some(input_rejection(refusal))),
    };
    match formula_of(alloc, protocol_text(input)) {
        Ok(formula) => part_reply(alloc, &formula, part),
        Err(Refusal::Line(line)) => Ok(Reply {
            status: Status::Refused,
            text: refused_line(alloc, line)?,
        }),
        Err(Refusal::TooMany) => unreachable!(),
        Err(Refusal::NoMemory) => Err(NoMemory),
    }
}

/// The reply on the formula and the text of a log.
fn part_reply(alloc: Global, formula: &Formula, part: &[u8]) -> Result<Reply<Status>, NoMemory>
    requires few { length formula.now.clauses ≤ clause_limit }
    requires short { length part.now ≤ input_limit }
    ensures { (text : List ℕ) → IsFormulaOf text formula.now →
        IfOk result (IsPartReply text part.now) }
{
    // law: a log has no more steps than its text has bytes
    steps_are_fewer_than_bytes();
    match read_log(alloc, part) {
        Ok((_, log)) => log_answer(alloc, formula, &log),
        Err(refusal) => refused_for(alloc, log_rejection(refusal)),
    }
}

/// The reply to what is refused. Without a rejection memory ran out.
fn refused_for(alloc: Global, rejection: Option<Rejection>) -> Result<Reply<Status>, NoMemory>
    ensures { IfOk result (IsRefusal rejection) }
{
    match rejection {
        Some(rejection) => refused(alloc, &rejection),
        None => Err(NoMemory),
    }
}
