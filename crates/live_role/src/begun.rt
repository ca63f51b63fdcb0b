ghost use Rattle.std.specs.Prelude.{◌≡◌, ◌+◌, ◌<◌, ◌≤◌, length, IfErr, IfOk, Some};
ghost use Rattle.role_server.specs.Live.{first_live_store};
ghost use Rattle.live_role.specs.Journal.{BeginsFrom, faults_by, journals_at};
ghost use Rattle.live_role.specs.RefusedJournal.{lf_count};
ghost use Rattle.live_role.specs.inner.Begun.{CannotBegin, NamesLineOf, unrestored_by};
ghost use Rattle.live_role.specs.inner.Request.{journal_said};

use super::journal_choice::RoleJournal;
use super::journal_head::journal_head;
use super::journal_refusal::JournalRefusal;
use super::journals::Journals;
use super::request::JournalOption;
use bspl_types::{Admitted, Expanded};
use kept_lines::{OpenRefusal, RestoreRefusal, restore};
use list_base::NoMemory;
use role_questions::AskedRole;
use std::alloc::Global;

/// A role that is to be served, and where its lines are kept.
#[derive(Drop)]
pub struct Begun<J> {
    pub role: AskedRole,
    pub journal: RoleJournal<J>,
}

/// Why a role does not begin.
#[derive(Clone, Copy, Debug)]
pub enum Unbegun {
    /// Its journal is refused.
    Refused(JournalRefusal),
    /// Memory ran out.
    NoMemory,
}

impl From<NoMemory> for Unbegun {
    ghost use Rattle.std.specs.Prelude.{◌≡◌};
    ghost use Rattle.live_role.specs.declared.begun.Unbegun.TheVariants.{NoMemory};

    ghost from_gives = { λ _ unbegun. unbegun ≡ NoMemory };

    fn from(_error: NoMemory) -> Unbegun {
        Unbegun::NoMemory
    }
}

impl From<OpenRefusal> for Unbegun {
    ghost use Rattle.std.specs.Prelude.{◌≡◌};
    ghost use Rattle.live_role.specs.inner.Begun.{unbegun_by};

    ghost from_gives = { λ refusal unbegun. unbegun ≡ unbegun_by refusal };

    fn from(refusal: OpenRefusal) -> Unbegun {
        match refusal {
            OpenRefusal::AnotherJournal => Unbegun::Refused(JournalRefusal::AnotherJournal),
            OpenRefusal::InUse => Unbegun::Refused(JournalRefusal::InUse),
            OpenRefusal::Failed(_) => Unbegun::Refused(JournalRefusal::Failed),
            OpenRefusal::NoMemory => Unbegun::NoMemory,
        }
    }
}

/// A role without events, or with those of its journal.
pub fn begin_role<F: Journals>(
    alloc: Global,
    journals: &F,
    wanted: Option<JournalOption<'_>>,
    protocol: &Admitted,
    role: u32,
) -> Result<Begun<F::Kept>, Unbegun>
    requires { role < length protocol.now.roles }
    ensures ok { IfOk result (λ begun. BeginsFrom
        (journals_at F.finds F.refuses F.Kept.kept F.is_synced journals.now) (journal_said wanted.entry)
        protocol.now role begun.role begun.journal) }
    ensures err { IfErr result (CannotBegin
        (journals_at F.finds F.refuses F.Kept.kept F.is_synced journals.now) (journal_said wanted.entry)
        protocol.now role) }
    ensures faults { IfOk result (λ begun. faults_by F.Kept.faults begun.journal ≡ 0) }
{
    let live = AskedRole::new(alloc, protocol, role)?;
    match wanted {
        Some(wanted) => begin_with(alloc, journals, wanted, protocol.expanded(), role, live),
        None => Ok(Begun {
            role: live,
            journal: RoleJournal::Unkept,
        }),
    }
}

/// Gives a role without events those of its journal. The lines of the journal are answered before
/// anything behind them is cut off, so a file that is refused stays as it was.
fn begin_with<F: Journals>(
    alloc: Global,
    journals: &F,
    wanted: JournalOption<'_>,
    x: &Expanded,
    role: u32,
    live: AskedRole,
) -> Result<Begun<F::Kept>, Unbegun>
    requires { live ≡ first_live_store x.now role }
    ensures ok { IfOk result (λ begun. BeginsFrom
        (journals_at F.finds F.refuses F.Kept.kept F.is_synced journals.now) (journal_said (Some wanted.entry))
        x.now role begun.role begun.journal) }
    ensures err { IfErr result (CannotBegin
        (journals_at F.finds F.refuses F.Kept.kept F.is_synced journals.now) (journal_said (Some wanted.entry))
        x.now role) }
    ensures faults { IfOk result (λ begun. faults_by F.Kept.faults begun.journal ≡ 0) }
{
    let head = journal_head(alloc, x, role)?;
    let found = journals.find(wanted.path, head.as_slice())?;
    let live = match restore(alloc, live, F::lines(&found)) {
        Ok(live) => live,
        Err(refusal) => {
            return Err(unrestored(head.as_slice(), F::lines(&found), refusal));
        }
    };
    match F::begin(alloc, found, wanted.syncs) {
        Ok(journal) => Ok(Begun {
            role: live,
            journal: RoleJournal::Kept(journal),
        }),
        Err(OpenRefusal::NoMemory) => Err(Unbegun::NoMemory),
        Err(_) => Err(Unbegun::Refused(JournalRefusal::Failed)),
    }
}

/// Why lines behind the head are not restored. A line is named by its number in the file.
fn unrestored(head: &[u8], lines: &[u8], refusal: RestoreRefusal) -> Unbegun
    requires { NamesLineOf lines.now refusal }
    ensures { result ≡ unrestored_by head.now refusal }
{
    match refusal {
        RestoreRefusal::NotKept { line } => Unbegun::Refused(JournalRefusal::NoEvent {
            line: line_in_file(head, lines, line),
        }),
        RestoreRefusal::NoMemory => Unbegun::NoMemory,
    }
}

/// The number in the file of a line behind the head.
#[tactic(auto, using(crate::proofs::BegunLemmas::lf_few))]
fn line_in_file(head: &[u8], lines: &[u8], line: u64) -> u64
    requires { line ≤ length lines.now }
    ensures { result ≡ lf_count head.now + line }
{
    line_count(head) + line
}

/// How many LFs are among the bytes.
fn line_count(bytes: &[u8]) -> u64
    ensures { result ≡ lf_count bytes.now }
{
    bytes.iter().filter(|byte| **byte == b'\n').count() as u64
}
