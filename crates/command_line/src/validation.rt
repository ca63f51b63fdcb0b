ghost use Rattle.std.specs.Prelude.{ℕ, MatchOption};
ghost use Rattle.std.specs.Option.{option_copied, option_to_list};
ghost use Rattle.command_line.specs.declared.line.CommandLine.{CommandLine as Line};
ghost use Rattle.command_line.specs.declared.line.Subject.{Subject as Aim};
ghost use Rattle.command_line.specs.RawArgs.{parsed_of};
ghost use Rattle.command_line.specs.Line.{IsOptionValue, IsLineOf, IsSubject};

use super::budget::Budget;
use super::command::command_of;
use super::line::{CommandLine, Subject};
use super::number::number_in;
use super::raw_args::RawArgs;
use super::thread_count::ThreadCount;
use bspl_types::is_name;

/// The numbers that an option takes, and the one that it has if it is left out.
#[derive(Clone, Copy, Debug)]
struct Choice {
    least: u32,
    most: u32,
    default: u32,
}

const CONFLICTS: Choice = Choice {
    least: 1,
    most: 20_000,
    default: 10_000,
};

const THREADS: Choice = Choice {
    least: 0,
    most: 8,
    default: 1,
};

/// The number that an option has: its value, or the default.
fn chosen(belongs: bool, choice: Choice, value: Option<&str>) -> Option<u32>
    ensures { MatchOption result
        ((n : ℕ) → ¬ IsOptionValue belongs choice.least choice.most choice.default
        (option_to_list (option_copied value.entry)) n)
        (IsOptionValue belongs choice.least choice.most choice.default
        (option_to_list (option_copied value.entry))) }
{
    let Some(value) = value else {
        return Some(choice.default);
    };
    if belongs {
        number_in(value.as_bytes(), choice.least, choice.most)
    } else {
        None
    }
}

/// What a command is about: a size if a number follows it, and else a protocol.
fn subject_of(sized: bool, word: &[u8]) -> Option<Subject<'_>>
    ensures { MatchOption result
        ((subject : Aim) → ¬ IsSubject sized word.now subject)
        (IsSubject sized word.now) }
{
    if sized {
        let size = number_in(word, 1, 16)?;
        return Some(Subject::Size(size));
    }
    if is_name(word) {
        Some(Subject::Protocol(word))
    } else {
        None
    }
}

/// The command line that is given, if it is one.
pub fn line_of(given: RawArgs<'_>) -> Option<CommandLine<'_>>
    ensures { MatchOption result ((line : Line) → ¬ IsLineOf (parsed_of given.entry) line)
        (IsLineOf (parsed_of given.entry)) }
{
    let (Some(first), Some(second)) = (given.command, given.name) else {
        return None;
    };
    let command = command_of(first.as_bytes())?;
    let row = command.row();
    let subject = subject_of(row.sized, second.as_bytes())?;
    if given.brief && !row.brief {
        return None;
    }
    let conflicts = chosen(row.conflicts, CONFLICTS, given.conflicts)?;
    let threads = chosen(row.threads, THREADS, given.threads)?;
    Some(CommandLine {
        command,
        subject,
        brief: given.brief,
        conflicts: Budget::of(conflicts),
        threads: ThreadCount::of(threads),
    })
}
