ghost use Rattle.std.specs.Prelude.{◌≡◌, ◌++◌, IfOk, List, OnOk};
ghost use Rattle.html.specs.Fragment.{Fragment as SpecFragment, as_html};
ghost use Rattle.page_sections.specs.Page.{liveness_word, page, page_head, page_tables};
ghost use Rattle.page_sections.specs.Page.{page_verdicts, safety_word};
ghost use Rattle.report.specs.VerdictText.{HaveFittingRuns};

use super::fates::{dead_of, push_fates};
use super::verdicts::{push_liveness, push_safety};
use super::wording::{LIVE, NOT_LIVE, PAGE_END, PAGE_HEAD, SAFE, UNDECIDED, UNSAFE};
use bspl_types::{Admitted, Expanded};
use html::{Fragment, STYLE, fill, push_fragments, push_messages, push_sources};
use list_base::{Bytes, NoMemory};
use message_fates::Fate;
use std::alloc::Global;
use verdict::{Liveness, Safety, Verdicts};

/// The page of the verdicts, of a section that is written already, and of what becomes of each
/// message: one file that needs no other.
pub fn page_text(
    alloc: Global,
    a: &Admitted,
    v: &Verdicts,
    fates: &[Fate],
    section: &[u8],
) -> Result<Bytes, NoMemory>
    requires { HaveFittingRuns a.now v.now }
    ensures { IfOk result (λ text. (shown : List SpecFragment) → section.now ≡ as_html shown →
        text ≡ as_html (page a.now v.now fates.now shown)) }
{
    let mut text = Bytes::new(alloc);
    push_verdicts(alloc, &mut text, a, v)?;
    text.append(section)?;
    push_tables(alloc, &mut text, a.expanded(), fates)?;
    Ok(text)
}

/// Appends the beginning of the page, and both verdicts.
fn push_verdicts(
    alloc: Global,
    text: &mut Bytes,
    a: &Admitted,
    v: &Verdicts,
) -> Result<(), NoMemory>
    requires { HaveFittingRuns a.now v.now }
    ensures { OnOk result (text.new ≡ text.old ++ as_html (page_verdicts a.now v.now)) }
{
    push_head(text, a.expanded(), v)?;
    push_safety(alloc, text, a, &v.safety)?;
    push_liveness(alloc, text, a, &v.liveness)
}

/// Appends the dead messages, the tables, and the end of the page.
fn push_tables(
    alloc: Global,
    text: &mut Bytes,
    x: &Expanded,
    fates: &[Fate],
) -> Result<(), NoMemory>
    ensures { OnOk result (text.new ≡ text.old ++ as_html (page_tables x.now fates.now)) }
{
    let dead = dead_of(alloc, fates)?;
    push_fates(text, x, fates)?;
    push_messages(text, x)?;
    push_sources(text, x, dead.as_slice())?;
    push_fragments(text, &[Fragment::Tag(PAGE_END)])
}

/// Appends the beginning of the page, with the title in the head and in the body.
fn push_head(text: &mut Bytes, x: &Expanded, v: &Verdicts) -> Result<(), NoMemory>
    ensures { OnOk result (text.new ≡ text.old ++ as_html (page_head x.now v.now)) }
{
    let name = x.name.as_slice();
    let safety = safety_word(&v.safety);
    let liveness = liveness_word(&v.liveness);
    fill(
        text,
        PAGE_HEAD,
        &[
            Fragment::Words(name),
            Fragment::Tag(safety),
            Fragment::Tag(liveness),
            Fragment::Tag(STYLE),
            Fragment::Words(name),
            Fragment::Tag(safety),
            Fragment::Tag(liveness),
        ],
    )
}

/// The verdict on safety in a word.
fn safety_word(safety: &Safety) -> &'static [u8]
    ensures { result.now ≡ safety_word safety.now }
{
    match safety {
        Safety::Safe(_) => SAFE,
        Safety::Unsafe { .. } => UNSAFE,
        Safety::Undecided(_) => UNDECIDED,
    }
}

/// The verdict on liveness in a word or two.
fn liveness_word(liveness: &Liveness) -> &'static [u8]
    ensures { result.now ≡ liveness_word liveness.now }
{
    match liveness {
        Liveness::Live(_) => LIVE,
        Liveness::NotLive { .. } => NOT_LIVE,
        Liveness::Undecided(_) => UNDECIDED,
    }
}
