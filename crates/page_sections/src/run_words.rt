ghost use Rattle.std.specs.Prelude.{◌≡◌, ◌++◌, OnOk};
ghost use Rattle.html.specs.Fragment.{as_html};
ghost use Rattle.page_sections.specs.RunWords.{illegal_words, kept_words, legal_words};
ghost use Rattle.page_sections.specs.RunWords.{report_part, why_words};

use super::wording::{
    BOUND, CONFLICT, ILLEGAL, LEGAL, MISSING, OTHER, REPORT, SENTENCE_END, UNSENT,
};
use bspl_types::{Expanded, Value};
use enactment_model::{Conflict, Why};
use html::{Fragment, fill, param_name, push_fragments};
use list_base::{Bytes, NoMemory};
use std::alloc::Global;

/// Appends the position of the first bad event of an illegal run, and why it is bad.
pub(crate) fn push_illegal_words(
    alloc: Global,
    text: &mut Bytes,
    x: &Expanded,
    place: usize,
    why: Why,
) -> Result<(), NoMemory>
    ensures { OnOk result (text.new ≡
        text.old ++ as_html (illegal_words x.now (record { place = place; why = why }))) }
{
    fill(text, ILLEGAL, &[Fragment::Number(place as u64)])?;
    push_why(alloc, text, x, why)?;
    push_fragments(text, &[Fragment::Tag(SENTENCE_END)])
}

/// Appends why an event may not follow those before it.
fn push_why(alloc: Global, text: &mut Bytes, x: &Expanded, why: Why) -> Result<(), NoMemory>
    ensures { OnOk result (text.new ≡ text.old ++ as_html (why_words x.now why)) }
{
    match why {
        Why::Missing { param } => fill(text, MISSING, &[Fragment::Words(param_name(x, param))]),
        Why::Bound { param, kept } => push_kept(alloc, text, BOUND, param_name(x, param), &kept),
        Why::Other { param, kept } => push_kept(alloc, text, OTHER, param_name(x, param), &kept),
        Why::Unsent => push_fragments(text, &[Fragment::Tag(UNSENT)]),
    }
}

/// Appends the parameter of this name and the value that the sender knows of it.
fn push_kept<'t>(
    alloc: Global,
    text: &mut Bytes,
    template: &'t [u8],
    name: &'t [u8],
    kept: &Value,
) -> Result<(), NoMemory>
    ensures { OnOk result (text.new ≡
        text.old ++ as_html (kept_words template.now name.now kept.now)) }
{
    let mut value = Bytes::new(alloc);
    kept.write(&mut value)?;
    fill(
        text,
        template,
        &[Fragment::Words(name), Fragment::Words(value.as_slice())],
    )
}

/// Appends that the run is legal, and its conflict if it has one.
pub(crate) fn push_legal_words(
    text: &mut Bytes,
    x: &Expanded,
    found: Option<Conflict>,
) -> Result<(), NoMemory>
    ensures { OnOk result (text.new ≡ text.old ++ as_html (legal_words x.now found)) }
{
    match found {
        None => push_fragments(text, &[Fragment::Tag(LEGAL)]),
        Some(found) => fill(
            text,
            CONFLICT,
            &[
                Fragment::Number(found.first as u64),
                Fragment::Number(found.second as u64),
                Fragment::Words(param_name(x, found.param)),
            ],
        ),
    }
}

/// Appends the lines of a report.
pub(crate) fn push_report(text: &mut Bytes, report: &[u8]) -> Result<(), NoMemory>
    ensures { OnOk result (text.new ≡ text.old ++ as_html (report_part report.now)) }
{
    fill(text, REPORT, &[Fragment::Words(report)])
}
