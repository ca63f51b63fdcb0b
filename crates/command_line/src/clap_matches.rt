ghost use Rattle.std.specs.Prelude.{◌≡◌, IfOk, IsTrue, MatchOption, map, string_bytes};
ghost use Rattle.std.specs.List.{list_all, list_any};
ghost use Rattle.std.specs.Str.{bytes_eq};
ghost use Rattle.command_line.specs.RawArgs.{parsed_of};
ghost use Rattle.command_line.specs.Known.{options, is_known};
ghost use Rattle.command_line.specs.Argument.{begins_with_dash};
ghost use Rattle.command_line.specs.ParsedArgs.{HasNoRepeats, ParsedArgs, ParsesTo, nothing_parsed};

use super::clap_args::clap_command;
use super::raw_args::RawArgs;
use bspl_types::NoMemory;
use clap::error::ErrorKind;
use std::alloc::Global;

/// Whether it begins with `-`.
fn begins_with_dash(word: &[u8]) -> bool
    ensures { result ≡ begins_with_dash word.now }
{
    matches!(word, [b'-', ..])
}

/// Whether it is that text.
fn is_text(word: &[u8], text: &[u8]) -> bool
    ensures { result ≡ bytes_eq word.now text.now }
{
    word == text
}

/// Whether it is an option, or `--`.
fn is_option(word: &[u8]) -> bool
    ensures { result ≡ list_any (bytes_eq word.now) options }
{
    is_text(word, b"--")
        || is_text(word, b"--brief")
        || is_text(word, b"--conflicts")
        || is_text(word, b"--threads")
}

/// Whether a command line may have the argument.
fn is_known(word: &[u8]) -> bool
    ensures { result ≡ is_known word.now }
{
    !begins_with_dash(word)
        || is_option(word)
        || word.starts_with(b"--conflicts=")
        || word.starts_with(b"--threads=")
}

/// Whether a command line may have these arguments. `clap` takes more of them, as `-` for a value.
pub fn are_known(args: &[String]) -> bool
    ensures { result ≡ list_all (λ word. is_known (string_bytes word)) args.now }
{
    args.iter().all(|word| is_known(word.as_bytes()))
}

/// What the arguments set, if none is given too often.
pub fn raw_args_of<'a>(alloc: Global, args: &'a [String]) -> Result<Option<RawArgs<'a>>, NoMemory>
    requires { IsTrue (list_all (λ word. is_known (string_bytes word)) args.now) }
    ensures { IfOk result (λ found. MatchOption found
        ((s : ParsedArgs) → ParsesTo (map string_bytes args.now) nothing_parsed s →
        ¬ HasNoRepeats s)
        (λ given. ParsesTo (map string_bytes args.now) nothing_parsed (parsed_of given))) }
{
    let command = clap_command(alloc)?;
    let matches = match command.try_get_matches_from(args) {
        Ok(matches) => matches,
        Err(error) => {
            return match error.kind() {
                ErrorKind::OutOfMemory => Err(NoMemory),
                _ => Ok(None),
            };
        }
    };
    Ok(Some(RawArgs {
        brief: matches.get_flag("brief"),
        conflicts: matches.get_str("conflicts"),
        threads: matches.get_str("threads"),
        command: matches.get_str("command"),
        name: matches.get_str("name"),
    }))
}
