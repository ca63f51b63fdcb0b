ghost use Rattle.std.specs.Prelude.{◌≡◌, ◌≢◌, ◌++◌, codes, MatchOption};
ghost use Rattle.refutation_log.specs.LogText.{header_line};
ghost use Rattle.refutation_log.specs.declared.refutation.Kind.{Kind};
ghost use Rattle.refutation_log.specs.declared.refutation.Version.{Version};

use super::refutation::{Kind, Version};

/// The first line of a log, without its LF.
pub fn title(version: Version, kind: Kind) -> &'static [u8]
    ensures { header_line version kind ≡ result.now ++ codes "\n" }
{
    match (version, kind) {
        (Version::One, Kind::Safety) => b"log 1 safety",
        (Version::One, Kind::Liveness) => b"log 1 liveness",
        (Version::Two, Kind::Safety) => b"log 2 safety",
        (Version::Two, Kind::Liveness) => b"log 2 liveness",
    }
}

/// The version and the kind whose title the line is.
pub fn header_of(line: &[u8]) -> Option<(Version, Kind)>
    ensures { MatchOption result
        ((version : Version) (kind : Kind) → line.now ++ codes "\n" ≢ header_line version kind)
        (λ header. line.now ++ codes "\n" ≡ header_line header.0 header.1) }
{
    if line == title(Version::One, Kind::Safety) {
        Some((Version::One, Kind::Safety))
    } else if line == title(Version::One, Kind::Liveness) {
        Some((Version::One, Kind::Liveness))
    } else if line == title(Version::Two, Kind::Safety) {
        Some((Version::Two, Kind::Safety))
    } else if line == title(Version::Two, Kind::Liveness) {
        Some((Version::Two, Kind::Liveness))
    } else {
        None
    }
}
