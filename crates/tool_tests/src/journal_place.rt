use kept_lines::{Journal, MemJournal, OpenRefusal};
use live_role::Journals;
use std::alloc::Global;

/// The head of the journals of role A of the protocol Ping.
pub(crate) const HEAD: &[u8] = b"Ping {
  roles A, B
  parameters out ID key
  A -> B: ping[out ID]
}
%% wire
role A
";

/// A place with one journal in memory, under each path.
#[derive(Clone, Copy)]
pub(crate) struct Place {
    pub head: &'static [u8],
    pub lines: &'static [u8],
    /// How many calls of the journal succeed.
    pub calls: u32,
}

impl Place {
    /// A new journal that does not fail.
    pub(crate) const NEW: Place = Place {
        head: HEAD,
        lines: b"",
        calls: 1_000_000,
    };
}

/// What is found at a place.
#[derive(Drop)]
pub(crate) struct Found {
    head: &'static [u8],
    lines: &'static [u8],
    calls: u32,
}

impl Journals for Place {
    ghost use Rattle.std.specs.Prelude.{◌≡◌};

    type Found = Found;

    type Kept = MemJournal;

    ghost finds = { λ place path head lines. lines ≡ place.lines.now };

    ghost refuses = { λ _ path head refusal. Unit {0} };

    ghost found_head = { λ found. found.head.now };

    ghost found_lines = { λ found. found.lines.now };

    // A journal in memory has nothing to sync.
    ghost is_synced = { λ _ syncs. Unit {0} };

    fn find(&self, _path: &str, head: &[u8]) -> Result<Found, OpenRefusal> {
        if head != self.head {
            return Err(OpenRefusal::AnotherJournal);
        }
        Ok(Found {
            head: self.head,
            lines: self.lines,
            calls: self.calls,
        })
    }

    fn lines(found: &Found) -> &[u8] {
        found.lines
    }

    fn begin(alloc: Global, found: Found, _syncs: bool) -> Result<MemJournal, OpenRefusal> {
        let mut journal = MemJournal::new(alloc, found.calls as u64 + 1);
        match journal.keep(found.lines) {
            Ok(()) => Ok(journal),
            Err(_) => Err(OpenRefusal::AnotherJournal),
        }
    }
}
