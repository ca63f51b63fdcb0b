use kept_lines::{FileJournal, Journal, OpenRefusal, OpenedJournal, open_journal};
use std::alloc::Global;

/// Journals that are found by their paths.
pub trait Journals {
    ghost use Rattle.std.specs.Prelude.{◌≡◌, ℕ, Bool, List, IfErr, IfOk, IfSome};
    ghost use Rattle.kept_lines.specs.declared.open_refusal.OpenRefusal.{OpenRefusal};

    /// A journal that was found. No line of it was changed yet.
    type Found: Drop;

    /// A journal that keeps lines.
    type Kept: Journal + Drop;

    // At the path there is a journal with this head, and these lines behind it.
    ghost finds: { Self → List ℕ → List ℕ → List ℕ → Type 0 };

    // At the path no journal with this head is found, for this reason.
    ghost refuses: { Self → List ℕ → List ℕ → OpenRefusal → Type 0 };

    // The head, and the lines behind it.
    ghost found_head: { Self.Found → List ℕ };

    ghost found_lines: { Self.Found → List ℕ };

    // What is kept is synced, or is not.
    ghost is_synced: { Self.Kept → Bool → Type 0 };

    /// Finds the journal at the path, or makes a new one with the head and no lines.
    fn find(&self, path: &str, head: &[u8]) -> Result<Self::Found, OpenRefusal>
        ensures found { IfOk result (λ found.
            finds self.now path.now head.now (found_lines found)) }
        ensures head { IfOk result (λ found. found_head found ≡ head.now) }
        ensures refused { IfErr result (refuses self.now path.now head.now) };

    /// Lends the lines behind the head.
    fn lines(found: &Self::Found) -> &[u8]
        ensures { result.now ≡ found_lines found.now };

    /// Goes on behind the lines, with or without syncs. No fault was counted yet.
    fn begin(alloc: Global, found: Self::Found, syncs: bool) -> Result<Self::Kept, OpenRefusal>
        ensures kept { IfOk result (λ journal.
            IfSome (Self.Kept.kept journal) (λ known. known ≡ found_lines found)) }
        ensures synced { IfOk result (λ journal. is_synced journal syncs) }
        ensures faults { IfOk result (λ journal. Self.Kept.faults journal ≡ 0) };
}

/// The journals in files.
impl Journals for HostRuntime {
    ghost use Rattle.std.specs.Prelude.{◌≡◌};
    ghost use Rattle.kept_lines.specs.Text.{AreTextLines};

    type Found = OpenedJournal;

    type Kept = FileJournal;

    // Of what is in a file nothing else is known, nor of why the system refuses one.
    ghost finds = { λ _ path head lines. AreTextLines lines };

    ghost refuses = { λ _ path head refusal. Unit {0} };

    ghost found_head = { λ opened. opened.head };

    ghost found_lines = { λ opened. opened.lines };

    ghost is_synced = { λ journal syncs. journal.syncs ≡ syncs };

    fn find(&self, path: &str, head: &[u8]) -> Result<OpenedJournal, OpenRefusal> {
        let found = open_journal(self, path, head)?;
        Ok(found)
    }

    fn lines(found: &OpenedJournal) -> &[u8] {
        found.lines()
    }

    fn begin(alloc: Global, found: OpenedJournal, syncs: bool) -> Result<FileJournal, OpenRefusal> {
        found.begin(alloc, syncs)
    }
}
