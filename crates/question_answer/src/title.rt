ghost use Rattle.std.specs.Prelude.{◌≡◌, ◌≢◌, ◌++◌, ℕ, List, MatchOption};
ghost use Rattle.refutation_log.specs.declared.refutation.Version.{Version};
ghost use Rattle.question_answer.specs.QuestionLog.{IsTitled};
ghost use Rattle.question_answer.specs.inner.Title.{title_front};

use refutation_log::Version;
use text_lines::split_once;

/// How many bytes of the first line come before the question.
const FRONT_LEN: usize = 10;

/// The version, the question as it is spelled, and what follows the first line, if that is one of
/// a text on a question.
pub fn split_title(text: &[u8]) -> Option<(Version, &[u8], &[u8])>
    ensures { MatchOption result
        ((version : Version) (spelling rest : List ℕ) → ¬ IsTitled text.now version spelling rest)
        (λ parts. IsTitled text.now parts.0 parts.1.now parts.2.now) }
{
    let (line, rest) = split_once(text, b'\n');
    let rest = rest?;
    let (version, spelling) = split_line(line)?;
    Some((version, spelling, rest))
}

/// The version in a first line, and the question.
fn split_line(line: &[u8]) -> Option<(Version, &[u8])>
    ensures { MatchOption result
        ((version : Version) (spelling : List ℕ) → line.now ≢ title_front version ++ spelling)
        (λ parts. line.now ≡ title_front parts.0 ++ parts.1.now) }
{
    if line.len() < FRONT_LEN {
        return None;
    }
    let version = version_of(&line[..FRONT_LEN])?;
    Some((version, &line[FRONT_LEN..]))
}

/// The version in what comes before the question.
fn version_of(front: &[u8]) -> Option<Version>
    ensures { MatchOption result
        ((version : Version) → front.now ≢ title_front version)
        (λ version. front.now ≡ title_front version) }
{
    if front == b"log 1 ask ".as_slice() {
        Some(Version::One)
    } else if front == b"log 2 ask ".as_slice() {
        Some(Version::Two)
    } else {
        None
    }
}

/// What comes before the question in a first line of the version.
pub(crate) fn title_front(version: Version) -> &'static [u8]
    ensures { result.now ≡ title_front version }
{
    match version {
        Version::One => b"log 1 ask ",
        Version::Two => b"log 2 ask ",
    }
}
