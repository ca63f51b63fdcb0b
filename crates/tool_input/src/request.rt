ghost use Rattle.std.specs.Prelude.{◌≡◌, ◌≤◌, ℕ, List, IfErr, IfOk, length, unwrap_or};
ghost use Rattle.bspl_types.specs.Limits.{input_limit};
ghost use Rattle.program_frame.specs.Program.{IsRequested};
ghost use Rattle.tool_input.specs.declared.status.Status.TheVariants.{Usage};
ghost use Rattle.tool_input.specs.Answer.{IsRightAnswer};
ghost use Rattle.tool_input.specs.Error.{RejectsFor};
ghost use Rattle.tool_input.specs.Interface.{IsSomeRequest};
ghost use Rattle.tool_input.specs.Output.{AnswersInput, Output};
ghost use Rattle.tool_input.specs.Refusals.{RefusesInput};
ghost use Rattle.tool_input.specs.Request.{IsRequest};

use super::answer_error::AnswerError;
use super::input_protocol::declared_protocol;
use super::limits::INPUT_LIMIT;
use super::need::given;
use super::parts::protocol_text;
use super::question::Question;
use super::refusal::InputRefusal;
use super::rejection::input_rejection;
use super::status::Status;
use bspl_types::{Bytes, NoMemory};
use program_frame::{Program, Reply};
use std::alloc::Global;
use std::marker::{Model, PhantomData};

/// What the arguments request. Arguments that request no task are answered with the usage line.
/// Contracts see what is asked.
#[derive(Drop)]
pub struct Request<'a, Q> {
    asked: Option<Q>,
    args: PhantomData<&'a ()>,
}

impl<'a, Q> Model for Request<'a, Q> {
    ghost use Rattle.std.specs.Coded.{coded_option};
    ghost use Rattle.std.specs.Prelude.{Option};

    ghost Value = { Option Q };

    ghost coded = { coded_option Q.code };

    ghost view = { λ request. request.asked };
}

impl<'a, Q: Question<'a>> Program<'a> for Request<'a, Q> {
    type Status = Status;

    ghost use Rattle.bspl_types.specs.Limits.{input_limit};
    ghost use Rattle.tool_input.specs.Interface.{RequestsInput};
    ghost use Rattle.tool_input.specs.Output.{Output};
    ghost use Rattle.tool_input.specs.Request.{IsRequest};

    ghost requests = { λ args request. IsRequest Q.interface Q.task Q.name args request };

    ghost asks = { RequestsInput Q.interface };

    ghost answers = { Output Q.interface };

    ghost limit = { input_limit };

    fn request(alloc: Global, args: &'a [String]) -> Result<Request<'a, Q>, NoMemory> {
        let asked = Q::asked(alloc, args)?;
        Ok(Request {
            asked,
            args: PhantomData,
        })
    }

    fn input_limit(&self) -> u64 {
        INPUT_LIMIT
    }

    fn asks_input(&self) -> bool {
        // law: arguments request one task at most, and a refusal at once is written alike
        Q::asks_once();
        match &self.asked {
            Some(question) => question.refused_at_once().is_none() && question.reads_input(),
            None => false,
        }
    }

    fn reply_to(&self, alloc: Global, input: Bytes) -> Result<Reply<Status>, NoMemory> {
        Q::finish(alloc, self.answer(alloc, input.as_slice())?)
    }

    fn too_long(&self, alloc: Global) -> Result<Reply<Status>, NoMemory> {
        // law: an input that is too long is refused alike whatever it is
        Q::asks_once();
        match &self.asked {
            Some(question) => {
                let rejection = input_rejection(InputRefusal::TooLong { limit: INPUT_LIMIT });
                question.refused(alloc, b"", &rejection)
            }
            None => usage_reply::<Q>(alloc),
        }
    }
}

impl<'a, Q: Question<'a>> Request<'a, Q> {
    /// What is asked, if the arguments request a task.
    pub fn asked(&self) -> &Option<Q>
        ensures { result.now ≡ self.now }
    {
        &self.asked
    }

    /// What is answered on the whole input, or on no bytes if none is asked for. A refusal is an
    /// answer too.
    pub fn answer(&self, alloc: Global, input: &[u8]) -> Result<Q::Answer, NoMemory>
        requires known { IsRequested (IsRequest Q.interface Q.task Q.name) self.now }
        requires short { length input.now ≤ input_limit }
        ensures right { (args : List (List ℕ)) →
            IsRequest Q.interface Q.task Q.name args self.now →
            IfOk result (IsRightAnswer Q.completes (Output Q.interface args input.now)) }
        ensures finishes { IfOk result Q.can_finish }
    {
        let Some(question) = &self.asked else {
            return Ok(Q::whole(usage_reply::<Q>(alloc)?));
        };
        let own = question.own_text(alloc)?;
        let bytes = bytes_of(&own, input);
        if let Some(rejection) = question.refused_at_once() {
            return Ok(Q::whole(question.refused(alloc, bytes, &rejection)?));
        }
        match answer_input(alloc, question, bytes) {
            Ok(answer) => Ok(answer),
            Err(AnswerError::Rejected(rejection)) => {
                Ok(Q::whole(question.refused(alloc, bytes, &rejection)?))
            }
            Err(AnswerError::NoMemory) => Err(NoMemory),
        }
    }
}

/// What is answered to the question on the bytes that it is done on.
fn answer_input<'a, Q: Question<'a>>(
    alloc: Global,
    question: &Q,
    input: &[u8],
) -> Result<Q::Answer, AnswerError>
    requires known { IsSomeRequest Q.interface (Q.task question.now) (Q.name question.now) }
    requires short { length input.now ≤ input_limit }
    ensures ok { IfOk result (IsRightAnswer Q.completes (AnswersInput
        (Q.interface.rules (Q.task question.now)) (Q.name question.now) input.now)) }
    ensures finishes { IfOk result Q.can_finish }
    ensures refused { IfErr result (RejectsFor (RefusesInput
        (Q.interface.rules (Q.task question.now)) (Q.name question.now) input.now)) }
{
    let given = given(question.needs(), input)?;
    let protocol = declared_protocol(alloc, question.name(), protocol_text(input))?;
    question.answer(alloc, protocol, given)
}

/// The bytes that a task with that text of its own is done on.
fn bytes_of<'b>(own: &'b Option<Bytes>, input: &'b [u8]) -> &'b [u8]
    ensures { result.now ≡ unwrap_or own.now input.now }
{
    match own {
        Some(text) => text.as_slice(),
        None => input,
    }
}

/// The reply to arguments that request no task.
fn usage_reply<'a, Q: Question<'a>>(alloc: Global) -> Result<Reply<Status>, NoMemory>
    ensures text { IfOk result (λ reply. reply.text ≡ Q.interface.usage) }
    ensures ends { IfOk result (λ reply. reply.status ≡ Usage) }
{
    Ok(Reply {
        status: Status::Usage,
        text: Bytes::from_slice(alloc, Q::usage())?,
    })
}
