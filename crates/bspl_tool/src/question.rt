ghost use Rattle.std.specs.Prelude.{List, ℕ};
ghost use Rattle.command_line.specs.Line.{IsCommandLine};
ghost use Rattle.bspl_tool.specs.Interface.{IsToolRequest};

use super::task::{Task, task_of};
use super::wording::{STAGE, USAGE};
use agent_commands::{Answer, StageCount, finish};
use bspl_types::{Admitted, Bytes, NoMemory};
use command_line::{CommandLine, Subject, command_line, one_line};
use program_frame::Reply;
use std::alloc::Global;
use tool_input::{AnswerError, Need, Question, Rejection, Status, refused};

/// A task of the tool on the protocol of a name.
#[derive(Clone, Copy, Debug, PartialEq, Eq)]
pub struct ToolQuestion<'a> {
    pub task: Task,
    pub name: &'a [u8],
}

impl<'a> Question<'a> for ToolQuestion<'a> {
    type Answer = Answer;

    ghost use Rattle.std.specs.Prelude.{◌≡◌, IfOk};
    ghost use Rattle.agent_commands.specs.Answer.{Completes, IsPlayable};
    ghost use Rattle.tool_input.specs.Answer.{IsRightAnswer, RepliesWith};
    ghost use Rattle.tool_input.specs.TaskLaws.{AtOnceIsRefusedAlike, LongIsRefusedAlike, OneTask};
    ghost use Rattle.bspl_tool.specs.declared.task.Task.{Task as SpecTask};
    ghost use Rattle.bspl_tool.specs.Interface.{tool_interface};
    ghost use Rattle.bspl_tool.specs.Texts.{usage_text};

    ghost Task = { SpecTask };

    ghost interface = { tool_interface };

    ghost task = { λ question. question.task };

    ghost name = { λ question. question.name.now };

    ghost completes = { Completes };

    ghost can_finish = { IsPlayable };

    fn asked(alloc: Global, args: &'a [String]) -> Result<Option<ToolQuestion<'a>>, NoMemory> {
        match command_line(alloc, args) {
            Ok(Some(line)) => Ok(question_of(line)),
            Ok(None) => Ok(None),
            Err(_) => Err(NoMemory),
        }
    }

    fn usage() -> &'static [u8]
        ensures { result.now ≡ usage_text }
    {
        USAGE
    }

    fn name(&self) -> &[u8] {
        self.name
    }

    fn needs(&self) -> Need {
        self.task.needs()
    }

    fn refused_at_once(&self) -> Option<Rejection> {
        None
    }

    fn reads_input(&self) -> bool {
        self.task.reads_input()
    }

    fn own_text(&self, alloc: Global) -> Result<Option<Bytes>, NoMemory> {
        self.task.own_text(alloc)
    }

    fn answer(
        &self,
        alloc: Global,
        protocol: Admitted,
        given: &[u8],
    ) -> Result<Answer, AnswerError> {
        self.task.answer(alloc, protocol, given)
    }

    fn refused(
        &self,
        alloc: Global,
        _input: &[u8],
        rejection: &Rejection,
    ) -> Result<Reply<Status>, NoMemory> {
        refused(alloc, rejection)
    }

    fn whole(reply: Reply<Status>) -> Answer
        ensures is_reply { Completes result reply.text reply.status }
        ensures right { IsRightAnswer Completes (RepliesWith reply) result }
        ensures finishes { IsPlayable result }
    {
        Answer::Whole(reply)
    }

    fn finish(alloc: Global, answer: Answer) -> Result<Reply<Status>, NoMemory>
        requires { IsPlayable answer }
        ensures { IfOk result (λ reply. Completes answer reply.text reply.status) }
    {
        finish(alloc, answer)
    }

    fn asks_once()
        ensures once { OneTask tool_interface }
        ensures alike { LongIsRefusedAlike tool_interface }
        ensures at_once { AtOnceIsRefusedAlike tool_interface }
    {
        // law: arguments are one command line at most
        one_line();
    }
}

/// What a command line asks.
fn question_of(line: CommandLine<'_>) -> Option<ToolQuestion<'_>>
    ensures { (args : List (List ℕ)) → IsCommandLine args line.entry → IsToolRequest args result }
{
    match line.subject {
        Subject::Protocol(name) => {
            // always some: the name of a protocol follows no `generate`
            let task = task_of(line.command, line.brief, line.conflicts, line.threads)?;
            Some(ToolQuestion { task, name })
        }
        Subject::Size(size) => {
            // always some: a size is from 1 to 16
            let stages = StageCount::of(size)?;
            let task = Task::Generate {
                stages,
                conflicts: line.conflicts,
                threads: line.threads,
            };
            Some(ToolQuestion { task, name: STAGE })
        }
    }
}
