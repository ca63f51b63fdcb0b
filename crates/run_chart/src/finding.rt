ghost use Rattle.std.specs.Prelude.{◌≡◌, ◌<◌};
ghost use Rattle.run_chart.specs.Labels.{is_ringed};
ghost use Rattle.run_chart.specs.EventTable.{ring_words};

use super::wording::{CLASH, NOT_ALLOWED};

/// What a run shows of a protocol.
#[derive(Clone, Copy, Debug)]
pub enum Finding {
    /// Two events, counted from 1, produce the parameter.
    Clash {
        param: u32,
        first: usize,
        second: usize,
    },
    /// At its end no role knows the parameter.
    Open {
        param: u32,
    },
    /// The event, counted from 1, may not follow those before it.
    Bad {
        event: usize,
    },
    /// Nothing that is marked.
    Plain,
}

/// Whether the event at the index is ringed: it is one of two that clash, or may not follow.
pub(crate) fn is_ringed(finding: Finding, index: usize) -> bool
    requires { index < usize.MAX }
    ensures { result ≡ is_ringed finding index }
{
    match finding {
        Finding::Clash { first, second, .. } => index + 1 == first || index + 1 == second,
        Finding::Bad { event } => index + 1 == event,
        Finding::Open { .. } | Finding::Plain => false,
    }
}

/// What the table says of the event at the index, if it is ringed.
pub(crate) fn ring_words(finding: Finding, index: usize) -> &'static [u8]
    requires { index < usize.MAX }
    ensures { result.now ≡ ring_words finding index }
{
    if !is_ringed(finding, index) {
        return b"";
    }
    match finding {
        Finding::Clash { .. } => CLASH,
        Finding::Bad { .. } => NOT_ALLOWED,
        Finding::Open { .. } | Finding::Plain => b"",
    }
}
