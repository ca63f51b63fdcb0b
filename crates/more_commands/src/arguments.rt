ghost use Rattle.std.specs.Prelude.{◌≡◌, ◌↔◌, List, ℕ, map, string_bytes, IfOk, IsTrue, MatchOption};
ghost use Rattle.more_commands.specs.declared.wording.TheConstants as wording;
ghost use Rattle.more_commands.specs.declared.word.CommandWord.TheVariants as word;
ghost use Rattle.more_commands.specs.Task.{IsNameAlone};
ghost use Rattle.more_commands.specs.inner.Question.{AskNoTask, IsAskedAfterWord, IsAskedBy};

use super::command::MoreCommand;
use super::formula_arguments::formula_question;
use super::question::MoreQuestion;
use super::word::CommandWord;
use super::wording::ASK;
use ask_commands::{AskRequest, ask_request};
use bspl_tool::ToolQuestion;
use bspl_types::is_name;
use list_base::NoMemory;
use std::alloc::Global;
use tool_input::Question;

/// What the arguments after the word of a command ask, if they are valid.
pub(crate) fn question_of<'a>(
    alloc: Global,
    word: CommandWord,
    args: &'a [String],
) -> Result<Option<MoreQuestion<'a>>, NoMemory>
    ensures { IfOk result (IsAskedBy word (map string_bytes args.now)) }
{
    match word {
        CommandWord::Ask => ask_question(alloc, args),
        CommandWord::Formula => formula_question(alloc, args),
        CommandWord::Lrat => Ok(lrat_question(args)),
        CommandWord::Page => Ok(page_question(args)),
        CommandWord::Explain => explain_question(alloc, args),
    }
}

/// What the arguments of `ask` ask.
fn ask_question<'a>(alloc: Global, args: &'a [String]) -> Result<Option<MoreQuestion<'a>>, NoMemory>
    ensures { IfOk result (IsAskedBy word.Ask (map string_bytes args.now)) }
{
    match ask_request(alloc, args)? {
        Some(AskRequest { name, command }) => Ok(Some(MoreQuestion {
            name,
            command: MoreCommand::Ask(command),
        })),
        None => Ok(None),
    }
}

/// What the arguments of `lrat` ask.
fn lrat_question(args: &[String]) -> Option<MoreQuestion<'_>>
    ensures { IsAskedBy word.Lrat (map string_bytes args.now) result }
{
    Some(MoreQuestion {
        name: name_alone(args)?,
        command: MoreCommand::Lrat,
    })
}

/// What the arguments of `page` ask.
fn page_question(args: &[String]) -> Option<MoreQuestion<'_>>
    ensures { IsAskedBy word.Page (map string_bytes args.now) result }
{
    Some(MoreQuestion {
        name: name_alone(args)?,
        command: MoreCommand::Page,
    })
}

/// The name that is the only argument.
fn name_alone(args: &[String]) -> Option<&[u8]>
    ensures { MatchOption result
        ((name : List ℕ) → ¬ IsNameAlone (map string_bytes args.now) name)
        (λ name. IsNameAlone (map string_bytes args.now) name.now) }
{
    match args {
        [name] if is_name(name.as_bytes()) => Some(name.as_bytes()),
        _ => None,
    }
}

/// What the arguments of `explain` ask: what they ask of the tool or, after the word `ask`, of that
/// command.
fn explain_question<'a>(
    alloc: Global,
    args: &'a [String],
) -> Result<Option<MoreQuestion<'a>>, NoMemory>
    ensures { IfOk result (IsAskedBy word.Explain (map string_bytes args.now)) }
{
    match ToolQuestion::asked(alloc, args) {
        Ok(Some(ToolQuestion { task, name })) => Ok(Some(MoreQuestion {
            name,
            command: MoreCommand::Explain(task),
        })),
        Ok(None) => explain_ask_question(alloc, args),
        Err(_) => Err(NoMemory),
    }
}

/// What they ask if they ask nothing of the tool.
fn explain_ask_question<'a>(
    alloc: Global,
    args: &'a [String],
) -> Result<Option<MoreQuestion<'a>>, NoMemory>
    requires { AskNoTask (map string_bytes args.now) }
    ensures { IfOk result (IsAskedBy word.Explain (map string_bytes args.now)) }
{
    match asked_after_word(alloc, args)? {
        Some(AskRequest { name, command }) => Ok(Some(MoreQuestion {
            name,
            command: MoreCommand::ExplainAsk(command),
        })),
        None => Ok(None),
    }
}

/// What the arguments after the word `ask` request of that command.
fn asked_after_word<'a>(
    alloc: Global,
    args: &'a [String],
) -> Result<Option<AskRequest<'a>>, NoMemory>
    ensures { IfOk result (IsAskedAfterWord (map string_bytes args.now)) }
{
    let Some((word, rest)) = args.split_first() else {
        return Ok(None);
    };
    if is_ask(word.as_bytes()) {
        ask_request(alloc, rest)
    } else {
        Ok(None)
    }
}

/// Whether the word is that of `ask`.
fn is_ask(word: &[u8]) -> bool
    ensures { IsTrue result ↔ (word.now ≡ wording.ASK.now) }
{
    word == ASK
}
