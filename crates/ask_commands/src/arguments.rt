ghost use Rattle.std.specs.Prelude.{◌≡◌, Bool, map, string_bytes, IfOk, MatchOption};
ghost use Rattle.ask_commands.specs.declared.arguments.Flags.{Flags as SpecFlags};
ghost use Rattle.ask_commands.specs.AskArguments.{IsSwitch, SetsFlags, begins_option, is_kind, of_kind};
ghost use Rattle.ask_commands.specs.inner.Request.{IsSorted};

use list_base::{NoMemory, Seq};
use std::alloc::Global;

/// What an argument is.
#[derive(Clone, Copy, Debug, PartialEq, Eq)]
pub enum Kind {
    /// `--brief`.
    Brief,
    /// `--check`.
    Check,
    /// `--all`.
    All,
    /// Another one that begins as an option or its number does.
    Conflicts,
    /// The name of a protocol, or a question.
    Plain,
}

/// Which flags are given.
#[derive(Clone, Copy, Debug, PartialEq, Eq)]
pub struct Flags {
    pub brief: bool,
    pub check: bool,
    pub all: bool,
}

/// The arguments by their kinds.
#[derive(Drop)]
pub struct Sorted<'a> {
    pub flags: Flags,
    pub settings: Seq<&'a [u8]>,
    pub plain: Seq<&'a [u8]>,
}

/// The arguments by their kinds, if each flag is there once at most.
pub(crate) fn by_kind<'a>(alloc: Global, args: &'a [String]) -> Result<Option<Sorted<'a>>, NoMemory>
    ensures { IfOk result (IsSorted (map string_bytes args.now)) }
{
    let Some(flags) = flags_of(alloc, args)? else {
        return Ok(None);
    };
    Ok(Some(Sorted {
        flags,
        settings: args_of(alloc, args, Kind::Conflicts)?,
        plain: args_of(alloc, args, Kind::Plain)?,
    }))
}

/// Which flags the arguments give, if each is there once at most.
fn flags_of(alloc: Global, args: &[String]) -> Result<Option<Flags>, NoMemory>
    ensures { IfOk result (λ found. MatchOption found
        ((flags : SpecFlags) → ¬ SetsFlags (map string_bytes args.now) flags)
        (SetsFlags (map string_bytes args.now))) }
{
    let Some(brief) = flag_of(alloc, args, Kind::Brief)? else {
        return Ok(None);
    };
    let Some(check) = flag_of(alloc, args, Kind::Check)? else {
        return Ok(None);
    };
    let Some(all) = flag_of(alloc, args, Kind::All)? else {
        return Ok(None);
    };
    Ok(Some(Flags { brief, check, all }))
}

/// Whether the flag of that kind is there, if it is there once at most.
fn flag_of(alloc: Global, args: &[String], kind: Kind) -> Result<Option<bool>, NoMemory>
    ensures { IfOk result (λ found. MatchOption found
        ((on : Bool) → ¬ IsSwitch (of_kind kind (map string_bytes args.now)) on)
        (IsSwitch (of_kind kind (map string_bytes args.now)))) }
{
    match args_of(alloc, args, kind)?.as_slice() {
        [] => Ok(Some(false)),
        [_] => Ok(Some(true)),
        _ => Ok(None),
    }
}

/// The arguments of the kind, in order.
fn args_of<'a>(alloc: Global, args: &'a [String], kind: Kind) -> Result<Seq<&'a [u8]>, NoMemory>
    ensures { IfOk result (λ found.
        map (λ arg. arg.now) found ≡ of_kind kind (map string_bytes args.now)) }
{
    let mut found = Seq::new(alloc);
    for arg in args {
        if is_kind(kind, arg.as_bytes()) {
            found.push(arg.as_bytes())?;
        }
    }
    Ok(found)
}

/// Whether the argument is of the kind.
fn is_kind(kind: Kind, arg: &[u8]) -> bool
    ensures { result ≡ is_kind kind arg.now }
{
    let is_brief = arg == b"--brief".as_slice();
    let is_check = arg == b"--check".as_slice();
    let is_all = arg == b"--all".as_slice();
    match kind {
        Kind::Brief => is_brief,
        Kind::Check => is_check,
        Kind::All => is_all,
        Kind::Plain => !begins_option(arg),
        Kind::Conflicts => begins_option(arg) && !(is_brief || is_check || is_all),
    }
}

/// Whether it begins with a minus sign or a digit.
fn begins_option(arg: &[u8]) -> bool
    ensures { result ≡ begins_option arg.now }
{
    match arg {
        [first, ..] => *first == b'-' || first.is_ascii_digit(),
        [] => false,
    }
}
