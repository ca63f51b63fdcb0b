ghost use Rattle.std.specs.Prelude.{◌≡◌, ⊤, IfOk};
ghost use Rattle.tool_input.specs.Answer.{IsRightAnswer, RepliesWith};
ghost use Rattle.tool_input.specs.TaskLaws.{AtOnceIsRefusedAlike, LongIsRefusedAlike, OneTask};
ghost use Rattle.more_commands.specs.Interface.{more_interface};

use super::arguments::question_of;
use super::command::MoreCommand;
use super::word::word_of;
use super::wording::USAGE;
use ask_commands::asks_once;
use bspl_tool::ToolQuestion;
use bspl_types::Admitted;
use list_base::{Bytes, NoMemory};
use program_frame::Reply;
use question_text::one_question;
use std::alloc::Global;
use tool_input::{AnswerError, Need, Question, Rejection, Status};

/// A command on the protocol of a name.
#[derive(Drop)]
pub struct MoreQuestion<'a> {
    pub(crate) name: &'a [u8],
    pub(crate) command: MoreCommand<'a>,
}

impl<'a> Question<'a> for MoreQuestion<'a> {
    ghost use Rattle.std.specs.Prelude.{⊤};
    ghost use Rattle.tool_input.specs.Answer.{RepliesWith};
    ghost use Rattle.more_commands.specs.Interface.{more_interface};
    ghost use Rattle.more_commands.specs.Task.{MoreTask};
    ghost use Rattle.more_commands.specs.inner.Question.{more_task};

    type Answer = Reply<Status>;

    ghost Task = { MoreTask };

    ghost interface = { more_interface };

    ghost task = { λ question. more_task question.command };

    ghost name = { λ question. question.name.now };

    ghost completes = { RepliesWith };

    ghost can_finish = { λ _. ⊤ };

    fn asked(alloc: Global, args: &'a [String]) -> Result<Option<MoreQuestion<'a>>, NoMemory> {
        let Some((word, rest)) = args.split_first() else {
            return Ok(None);
        };
        match word_of(word.as_bytes()) {
            Some(word) => question_of(alloc, word, rest),
            None => Ok(None),
        }
    }

    fn usage() -> &'static [u8]
        ensures { result.now ≡ more_interface.usage }
    {
        USAGE
    }

    fn name(&self) -> &[u8] {
        self.name
    }

    fn needs(&self) -> Need {
        self.command.needs()
    }

    fn refused_at_once(&self) -> Option<Rejection> {
        self.command.refused_at_once()
    }

    fn reads_input(&self) -> bool {
        self.command.reads_input()
    }

    fn own_text(&self, alloc: Global) -> Result<Option<Bytes>, NoMemory> {
        self.command.own_text(alloc)
    }

    fn answer(
        &self,
        alloc: Global,
        protocol: Admitted,
        given: &[u8],
    ) -> Result<Reply<Status>, AnswerError> {
        self.command.answer(alloc, protocol, given)
    }

    fn refused(
        &self,
        alloc: Global,
        input: &[u8],
        rejection: &Rejection,
    ) -> Result<Reply<Status>, NoMemory> {
        self.command.refused(alloc, input, rejection)
    }

    fn whole(reply: Reply<Status>) -> Reply<Status>
        ensures is_reply { RepliesWith result reply.text reply.status }
        ensures right { IsRightAnswer RepliesWith (RepliesWith reply) result }
        ensures finishes { ⊤ }
    {
        reply
    }

    fn finish(alloc: Global, answer: Reply<Status>) -> Result<Reply<Status>, NoMemory>
        ensures { IfOk result (λ reply. RepliesWith answer reply.text reply.status) }
    {
        Ok(answer)
    }

    fn asks_once()
        ensures once { OneTask more_interface }
        ensures alike { LongIsRefusedAlike more_interface }
        ensures at_once { AtOnceIsRefusedAlike more_interface }
    {
        // laws: arguments request one task of the tool at most, and one of `ask`
        ToolQuestion::asks_once();
        asks_once();
        // law: a text is one question at most, or is refused for one reason
        one_question();
    }
}
