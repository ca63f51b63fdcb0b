ghost use Rattle.std.specs.Prelude.{◌≡◌, ◌≢◌, ◌++◌, ℕ, List, MatchOption};
ghost use Rattle.refutation_log.specs.declared.refutation.Version.{Version};
ghost use Rattle.enactability.specs.inner.Title.{IsTitle, dead_front};

use bspl_types::Expanded;
use refutation_log::Version;

/// How many bytes of the first line come before the name of the message.
const FRONT_LEN: usize = 11;

/// The version and the message in the line, if it is the first one of a text on a message.
pub(crate) fn title_of(x: &Expanded, line: &[u8]) -> Option<(Version, u32)>
    ensures { MatchOption result
        ((version : Version) (m : ℕ) → ¬ IsTitle x.now line.now version m)
        (λ title. IsTitle x.now line.now title.0 title.1) }
{
    let (version, name) = front_of(line)?;
    let message = x.message_named(name)?;
    Some((version, message))
}

/// The version in the line, and what comes after the fields that each first line has.
fn front_of(line: &[u8]) -> Option<(Version, &[u8])>
    ensures { MatchOption result
        ((version : Version) (name : List ℕ) → line.now ≢ dead_front version ++ name)
        (λ front. line.now ≡ dead_front front.0 ++ front.1.now) }
{
    if line.len() < FRONT_LEN {
        return None;
    }
    let version = version_of(&line[..FRONT_LEN])?;
    Some((version, &line[FRONT_LEN..]))
}

/// The version in what comes before the name of the message.
fn version_of(front: &[u8]) -> Option<Version>
    ensures { MatchOption result
        ((version : Version) → front.now ≢ dead_front version)
        (λ version. front.now ≡ dead_front version) }
{
    if front == b"log 1 dead ".as_slice() {
        Some(Version::One)
    } else if front == b"log 2 dead ".as_slice() {
        Some(Version::Two)
    } else {
        None
    }
}

/// What comes before the name of the message.
pub(crate) fn dead_front(version: Version) -> &'static [u8]
    ensures { result.now ≡ dead_front version }
{
    match version {
        Version::One => b"log 1 dead ",
        Version::Two => b"log 2 dead ",
    }
}
