ghost use Rattle.std.specs.Prelude.{IfOk, map, string_bytes, MatchOption};
ghost use Rattle.command_line.specs.declared.line.CommandLine.{CommandLine as Line};
ghost use Rattle.command_line.specs.Line.{IsCommandLine};

use super::budget::Budget;
use super::clap_matches::{are_known, raw_args_of};
use super::command::Command;
use super::thread_count::ThreadCount;
use super::validation::line_of;
use bspl_types::NoMemory;
use std::alloc::Global;

/// What a command is about.
#[derive(Clone, Copy, Debug, PartialEq, Eq)]
pub enum Subject<'a> {
    /// The protocol of that name.
    Protocol(&'a [u8]),
    /// What is to be generated, by its size.
    Size(u32),
}

/// What a command line asks for.
#[derive(Clone, Copy, Debug, PartialEq, Eq)]
pub struct CommandLine<'a> {
    pub command: Command,
    pub subject: Subject<'a>,
    pub brief: bool,
    pub conflicts: Budget,
    pub threads: ThreadCount,
}

/// The command line that the arguments are, if they are one.
pub fn command_line<'a>(
    alloc: Global,
    args: &'a [String],
) -> Result<Option<CommandLine<'a>>, NoMemory>
    ensures { IfOk result (λ found. MatchOption found
        ((line : Line) → ¬ IsCommandLine (map string_bytes args.now) line)
        (IsCommandLine (map string_bytes args.now))) }
{
    if !are_known(args) {
        return Ok(None);
    }
    match raw_args_of(alloc, args)? {
        Some(given) => Ok(line_of(given)),
        None => Ok(None),
    }
}
