ghost use Rattle.std.specs.Prelude.{◌≡◌};

use bspl_io::Trouble;
use kept_lines::Journal;

/// Where the lines of a role are kept.
#[derive(Drop)]
pub enum RoleJournal<J> {
    /// Nowhere.
    Unkept,
    /// In this journal.
    Kept(J),
}

impl<J: Journal> Journal for RoleJournal<J> {
    ghost use Rattle.live_role.specs.Journal.{faults_by, kept_by};

    ghost kept = { kept_by J.kept };

    ghost faults = { faults_by J.faults };

    fn keep(&mut self, lines: &[u8]) -> Result<(), Trouble> {
        match self {
            RoleJournal::Unkept => Ok(()),
            RoleJournal::Kept(journal) => journal.keep(lines),
        }
    }
}
