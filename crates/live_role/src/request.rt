ghost use Rattle.std.specs.Prelude.{◌≡◌, ◌≢◌, ◌↔◌, codes, map, string_bytes, IsTrue, MatchOption, Option};
ghost use Rattle.live_role.specs.Request.{JournalRequest, RequestsNothing, RequestsRole, journal_args};
ghost use Rattle.live_role.specs.inner.Request.{IsCheckedFirst, journal_said, request_said};

use super::same::are_same;
use bspl_types::is_name;

/// What the arguments request: a role of a protocol.
#[derive(Clone, Copy)]
pub struct Request<'a> {
    pub name: &'a [u8],
    pub role: &'a [u8],
    /// Whether the protocol is judged before the role is served.
    pub checked: bool,
    /// Where lines are kept, if they are.
    pub journal: Option<JournalOption<'a>>,
}

/// Where lines are kept.
#[derive(Clone, Copy)]
pub struct JournalOption<'a> {
    pub path: &'a str,
    /// Whether what is kept is synced.
    pub syncs: bool,
}

/// What the arguments request, unless they are invalid.
pub fn request_of(args: &[String]) -> Option<Request<'_>>
    ensures { MatchOption result
        (RequestsNothing (map string_bytes args.now))
        (λ r. RequestsRole (map string_bytes args.now) (request_said r)) }
{
    let [name, role, options @ ..] = args else {
        return None;
    };
    let (checked, rest) = unchecked_first(options);
    let journal = journal_of(rest)?;
    let name = name.as_bytes();
    let role = role.as_bytes();
    if !is_name(name) || !is_name(role) {
        return None;
    }
    Some(Request {
        name,
        role,
        checked,
        journal,
    })
}

/// Whether the protocol is judged, and the options behind that one.
fn unchecked_first(options: &[String]) -> (bool, &[String])
    ensures { IsCheckedFirst (map string_bytes options.now) result.0
        (map string_bytes result.1.now) }
{
    match options {
        [first, rest @ ..] if are_same(first.as_bytes(), b"--unchecked") => (false, rest),
        _ => (true, options),
    }
}

/// Where lines are kept, by all of the options that are left. Invalid ones give nothing.
fn journal_of(options: &[String]) -> Option<Option<JournalOption<'_>>>
    ensures { MatchOption result
        ((j : Option JournalRequest) → map string_bytes options.now ≢ journal_args j)
        (λ j. map string_bytes options.now ≡ journal_args (journal_said j)) }
{
    match options {
        [] => Some(None),
        [option, path] if is_journal(option) => Some(Some(JournalOption {
            path: path.as_str(),
            syncs: true,
        })),
        [option, path, last] if is_journal(option) && is_no_sync(last) => {
            Some(Some(JournalOption {
                path: path.as_str(),
                syncs: false,
            }))
        }
        _ => None,
    }
}

/// Whether the argument is `--journal`.
fn is_journal(arg: &String) -> bool
    ensures { IsTrue result ↔ (string_bytes arg.now ≡ codes "--journal") }
{
    are_same(arg.as_bytes(), b"--journal")
}

/// Whether the argument is `--no-sync`.
fn is_no_sync(arg: &String) -> bool
    ensures { IsTrue result ↔ (string_bytes arg.now ≡ codes "--no-sync") }
{
    are_same(arg.as_bytes(), b"--no-sync")
}
