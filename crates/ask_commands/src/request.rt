ghost use Rattle.std.specs.Prelude.{◌≡◌, ◌≤◌, List, ℕ, true, false, length, map, string_bytes, IfOk, MatchOption};
ghost use Rattle.ask_commands.specs.AskArguments.{IsNameOnly, IsNameWithText, SetsConflicts};
ghost use Rattle.ask_commands.specs.AskCommand.{IsAskRequest, ask_task};
ghost use Rattle.ask_commands.specs.AskTask.{PutsText};
ghost use Rattle.ask_commands.specs.inner.Request.{IsRequestByKind, by_kind_of};

use super::arguments::{Sorted, by_kind};
use super::command::{AskCommand, AskRequest};
use super::conflicts::conflicts_of;
use super::misread::question_or_misread;
use super::options::AskOptions;
use bspl_types::is_name;
use list_base::NoMemory;
use std::alloc::Global;

/// The most bytes of a question, whose offsets a count of 32 bits can give.
const MOST_BYTES: usize = 4_294_967_295;

/// What the arguments of `ask` request, if they are valid.
pub fn ask_request<'a>(
    alloc: Global,
    args: &'a [String],
) -> Result<Option<AskRequest<'a>>, NoMemory>
    ensures { IfOk result (IsAskRequest (map string_bytes args.now)) }
{
    match by_kind(alloc, args)? {
        Some(sorted) => request_by_kind(alloc, &sorted),
        None => Ok(None),
    }
}

/// What arguments of these kinds request.
fn request_by_kind<'a>(
    alloc: Global,
    sorted: &Sorted<'a>,
) -> Result<Option<AskRequest<'a>>, NoMemory>
    ensures { IfOk result (IsRequestByKind (by_kind_of sorted.now)) }
{
    if sorted.flags.check {
        Ok(check_request(sorted))
    } else if sorted.flags.all {
        Ok(rules_request(sorted))
    } else {
        question_request(alloc, sorted)
    }
}

/// What they request with `--check`.
fn check_request<'a>(sorted: &Sorted<'a>) -> Option<AskRequest<'a>>
    requires { sorted.now.flags.check ≡ true }
    ensures { IsRequestByKind (by_kind_of sorted.now) result }
{
    if sorted.flags.brief || sorted.flags.all || !sorted.settings.is_empty() {
        return None;
    }
    Some(AskRequest {
        name: name_only(sorted.plain.as_slice())?,
        command: AskCommand::Check,
    })
}

/// What they request with `--all`.
fn rules_request<'a>(sorted: &Sorted<'a>) -> Option<AskRequest<'a>>
    requires search { sorted.now.flags.check ≡ false }
    requires all { sorted.now.flags.all ≡ true }
    ensures { IsRequestByKind (by_kind_of sorted.now) result }
{
    let options = options_of(sorted)?;
    Some(AskRequest {
        name: name_only(sorted.plain.as_slice())?,
        command: AskCommand::Judge(options),
    })
}

/// What they request without these.
fn question_request<'a>(
    alloc: Global,
    sorted: &Sorted<'a>,
) -> Result<Option<AskRequest<'a>>, NoMemory>
    requires search { sorted.now.flags.check ≡ false }
    requires one { sorted.now.flags.all ≡ false }
    ensures { IfOk result (IsRequestByKind (by_kind_of sorted.now)) }
{
    let Some(options) = options_of(sorted) else {
        return Ok(None);
    };
    match name_with_text(sorted.plain.as_slice()) {
        Some((name, text)) => {
            let command = put(alloc, text, options)?;
            Ok(Some(AskRequest { name, command }))
        }
        None => Ok(None),
    }
}

/// The command that the text of a question puts.
fn put(alloc: Global, text: &[u8], options: AskOptions) -> Result<AskCommand, NoMemory>
    requires { length text.now ≤ 4294967295 }
    ensures { IfOk result (λ command. PutsText text.now options (ask_task command)) }
{
    match question_or_misread(alloc, text)? {
        Ok(question) => Ok(AskCommand::Put { question, options }),
        Err(misread) => Ok(AskCommand::Misread(misread)),
    }
}

/// How the question or the rules are answered.
fn options_of(sorted: &Sorted<'_>) -> Option<AskOptions>
    ensures { MatchOption result
        ((n : ℕ) → ¬ SetsConflicts (by_kind_of sorted.now).settings n)
        (λ options. (options.brief ≡ sorted.now.flags.brief) ×
        SetsConflicts (by_kind_of sorted.now).settings options.conflicts) }
{
    Some(AskOptions {
        brief: sorted.flags.brief,
        conflicts: conflicts_of(sorted.settings.as_slice())?,
    })
}

/// The name that is the only plain argument.
fn name_only<'a>(plain: &[&'a [u8]]) -> Option<&'a [u8]>
    ensures { MatchOption result
        ((name : List ℕ) → ¬ IsNameOnly (map (λ arg. arg.now) plain.now) name)
        (λ name. IsNameOnly (map (λ arg. arg.now) plain.now) name.now) }
{
    match plain {
        [name] if is_name(name) => Some(name),
        _ => None,
    }
}

/// The name and the text that are the only plain arguments.
fn name_with_text<'a>(plain: &[&'a [u8]]) -> Option<(&'a [u8], &'a [u8])>
    ensures { MatchOption result
        ((name text : List ℕ) → ¬ IsNameWithText (map (λ arg. arg.now) plain.now) name text)
        (λ found. IsNameWithText (map (λ arg. arg.now) plain.now) found.0.now found.1.now) }
{
    match plain {
        [name, text] if is_name(name) && text.len() <= MOST_BYTES => Some((name, text)),
        _ => None,
    }
}
