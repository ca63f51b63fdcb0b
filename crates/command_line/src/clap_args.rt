ghost use Rattle.std.specs.Prelude.{◌≡◌, IfOk};
ghost use Rattle.clap.specs.Words.{app_of, with_rule};
ghost use Rattle.command_line.specs.Clap.{bare_app, brief_arg, cli_app, conflicts_arg, threads_arg};

use clap::{Arg, ArgAction, Command};
use std::alloc::{AllocError, Global};

/// The options and the positional arguments, declared to `clap`. What their values may be is judged
/// later.
pub fn clap_command<'a>(alloc: Global) -> Result<Command<'a>, AllocError>
    ensures { IfOk result (λ command. app_of command ≡ cli_app) }
{
    let with_options = command_with_options(alloc)?;
    let command = Arg::new(alloc, "command");
    let with_command = with_options.arg(command)?;
    let name = Arg::new(alloc, "name");
    with_command.arg(name)
}

/// The options alone.
fn command_with_options<'a>(alloc: Global) -> Result<Command<'a>, AllocError>
    ensures { IfOk result (λ command. app_of command ≡
        with_rule (with_rule (with_rule bare_app brief_arg) conflicts_arg) threads_arg) }
{
    let with_brief = command_with_brief(alloc)?;
    let conflicts = Arg::new(alloc, "conflicts").long("conflicts");
    let with_conflicts = with_brief.arg(conflicts)?;
    let threads = Arg::new(alloc, "threads").long("threads");
    with_conflicts.arg(threads)
}

/// The option that takes no value, alone.
fn command_with_brief<'a>(alloc: Global) -> Result<Command<'a>, AllocError>
    ensures { IfOk result (λ command. app_of command ≡ with_rule bare_app brief_arg) }
{
    let brief = Arg::new(alloc, "brief")
        .long("brief")
        .action(ArgAction::SetTrue);
    bare_command(alloc).arg(brief)
}

/// The program without arguments.
fn bare_command<'a>(alloc: Global) -> Command<'a>
    ensures { app_of result ≡ bare_app }
{
    Command::new(alloc, "bspl")
        .no_binary_name(true)
        .disable_help_flag(true)
        .disable_version_flag(true)
}
