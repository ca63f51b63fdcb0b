ghost use Rattle.std.specs.Prelude.{◌≡◌, ◌≤◌, ◌↔◌, None, IfErr, IfOk, IfSome, IsTrue, length, map, string_bytes};
ghost use Rattle.bspl_types.specs.Limits.{input_limit};
ghost use Rattle.tool_input.specs.declared.status.Status.TheVariants.{Refused};
ghost use Rattle.tool_input.specs.Answer.{IsRightAnswer, RepliesWith};
ghost use Rattle.tool_input.specs.Error.{RejectsFor};
ghost use Rattle.tool_input.specs.Interface.{IsSomeRequest};
ghost use Rattle.tool_input.specs.TaskLaws.{AtOnceIsRefusedAlike, LongIsRefusedAlike, OneTask};
ghost use Rattle.tool_input.specs.Request.{IsRequest};

use super::answer_error::AnswerError;
use super::need::Need;
use super::rejection::Rejection;
use super::status::Status;
use bspl_types::{Admitted, Bytes, NoMemory};
use program_frame::Reply;
use std::alloc::Global;

/// What the arguments of a program ask: a task on the protocol of a name.
pub trait Question<'a>: Drop {
    ghost use Rattle.std.specs.Prelude.{List, ℕ};
    ghost use Rattle.tool_input.specs.declared.status.Status.{Status};
    ghost use Rattle.tool_input.specs.Interface.{Interface};

    /// What is answered before it is a whole reply. For most it is one.
    type Answer: Drop;

    // The tasks of the program.
    ghost Task: { Type 0 };

    // What the program promises of them.
    ghost interface: { Interface Task };

    // The task that is asked.
    ghost task: { Self → Task };

    // The name of the protocol.
    ghost name: { Self → List ℕ };

    // The answer comes to a reply with this text and this status.
    ghost completes: { Self.Answer → List ℕ → Status → Type 0 };

    // What has to hold of an answer that is made a whole reply.
    ghost can_finish: { Self.Answer → Type 0 };

    /// What the arguments ask, if they request a task.
    fn asked(alloc: Global, args: &'a [String]) -> Result<Option<Self>, NoMemory>
        ensures { IfOk result (IsRequest interface task name (map string_bytes args.now)) };

    /// The line for arguments that request no task.
    fn usage() -> &'static [u8]
        ensures { result.now ≡ interface.usage };

    /// The name of the protocol.
    fn name(&self) -> &[u8]
        ensures { result.now ≡ name self.now };

    /// What the task is given of the input beside the protocol.
    fn needs(&self) -> Need
        ensures { result ≡ (interface.rules (task self.now)).needs };

    /// Why the task is refused at once, before anything is read.
    fn refused_at_once(&self) -> Option<Rejection>
        ensures { result ≡ interface.refused_at_once (task self.now) };

    /// Whether the task is done on the input.
    fn reads_input(&self) -> bool
        ensures { IsTrue result ↔ (interface.own_text (task self.now) ≡ None) };

    /// The text that the task makes for itself and is done on in place of the input.
    fn own_text(&self, alloc: Global) -> Result<Option<Bytes>, NoMemory>
        ensures text { IfOk result (λ text. text ≡ interface.own_text (task self.now)) }
        ensures short { IfOk result (λ text.
            IfSome text (λ bytes. length bytes ≤ input_limit)) };

    /// What is answered on the protocol and the bytes that are given beside it.
    fn answer(
        &self,
        alloc: Global,
        protocol: Admitted,
        given: &[u8],
    ) -> Result<Self::Answer, AnswerError>
        requires known { IsSomeRequest interface (task self.now) (name self.now) }
        requires short { length given.now ≤ input_limit }
        ensures ok { IfOk result (IsRightAnswer completes
            ((interface.rules (task self.now)).answers protocol given.now)) }
        ensures finishes { IfOk result can_finish }
        ensures refused { IfErr result
            (RejectsFor ((interface.rules (task self.now)).refuses protocol given.now)) };

    /// The reply that refuses the task on these bytes.
    fn refused(
        &self,
        alloc: Global,
        input: &[u8],
        rejection: &Rejection,
    ) -> Result<Reply<Status>, NoMemory>
        ensures text { IfOk result (λ reply.
            interface.refusal_text (task self.now) input.now rejection.now reply.text) }
        ensures ends { IfOk result (λ reply. reply.status ≡ Refused) };

    /// The answer that is this whole reply.
    fn whole(reply: Reply<Status>) -> Self::Answer
        ensures is_reply { completes result reply.text reply.status }
        ensures right { IsRightAnswer completes (RepliesWith reply) result }
        ensures finishes { can_finish result };

    /// The reply that the answer comes to.
    fn finish(alloc: Global, answer: Self::Answer) -> Result<Reply<Status>, NoMemory>
        requires { can_finish answer }
        ensures { IfOk result (λ reply. completes answer reply.text reply.status) };

    /// A law: arguments request one task on one name at most, and the refusal of an input that is
    /// too long, or of a task at once, is written alike for each input.
    fn asks_once()
        ensures once { OneTask interface }
        ensures alike { LongIsRefusedAlike interface }
        ensures at_once { AtOnceIsRefusedAlike interface };
}
