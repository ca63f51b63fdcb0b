ghost use Rattle.std.specs.Prelude.{◌≡◌, ◌≢◌, [], ◌∷◌, map, string_bytes, drop, Err, IfOk, IfErr, IsOkAnd, MatchResult};
ghost use Rattle.std.specs.IoError.{error_kind};

use std::alloc::Global;
use std::env;
use std::io::{self, ErrorKind};
use std::rt::Env;

/// The program's arguments without its name, or one empty argument if any is not UTF-8.
///
/// No contract says which arguments these are: std's `Env` promises only that `arg` fills no more
/// than the buffer that it is given, and `env::args` promises nothing. What is made of the list
/// that `env::args` gives is the contract of `args_after_name`.
pub fn args_given<R: Env + AllocGlobal>(rt: &R) -> io::Result<Vec<String>> {
    args_after_name(rt.alloc(), all_args(rt))
}

/// The program's name and its arguments. They are pushed one by one, since each push reports that
/// memory is refused. `collect` asks for the room of all beforehand and goes on if it is refused.
fn all_args<R: Env + AllocGlobal>(rt: &R) -> io::Result<Vec<String>> {
    let mut all = Vec::new(rt.alloc());
    for arg in env::args(rt)? {
        all.push(arg)?;
    }
    Ok(all)
}

/// Drops the program's name. If an argument is not UTF-8, one empty argument takes the place of
/// all, which no program accepts. Any other error is passed on.
pub fn args_after_name(alloc: Global, all: io::Result<Vec<String>>) -> io::Result<Vec<String>>
    ensures text { IfOk all
        (λ named. IsOkAnd result (λ args. args.items ≡ drop 1 named.items)) }
    ensures not_text { IfErr all (λ error. error_kind error ≡ ErrorKind.InvalidData →
        MatchResult result (λ args. map string_bytes args.items ≡ [] ∷ [])
        (λ failure. error_kind failure ≡ ErrorKind.OutOfMemory)) }
    ensures other { IfErr all (λ error. error_kind error ≢ ErrorKind.InvalidData →
        result ≡ Err error) }
{
    match all {
        Ok(mut args) => {
            if !args.is_empty() {
                args.remove(0);
            }
            Ok(args)
        }
        Err(error) if error.kind() == ErrorKind::InvalidData => {
            let mut unknown = Vec::new(alloc);
            unknown.push(String::new(alloc))?;
            Ok(unknown)
        }
        Err(error) => Err(error),
    }
}
