ghost use Rattle.std.specs.Prelude.{◌≡◌, ◌≤◌, ◌++◌, length, OnOk, take};
ghost use Rattle.std.specs.List.{enumerate_from, flat_map};
ghost use Rattle.bspl_types.specs.Limits.{param_limit};
ghost use Rattle.html.specs.Fragment.{as_html};
ghost use Rattle.run_chart.specs.EventTable.{field_item, fields, known_cell, known_item};
ghost use Rattle.run_chart.specs.Knowledge.{value_before};

use super::knowledge::{Pair, push_field, value_before};
use super::shown::ShownEvent;
use super::wording::{EVENT_END, FIELD, KNOWN};
use bspl_types::{Expanded, ParamInfo, Value};
use html::{Fragment, fill};
use list_base::{Bytes, NoMemory};
use std::alloc::Global;

/// Appends each pair.
#[tactic(auto, using(html::proofs::WritingLemmas::written_next))]
pub(crate) fn push_fields(
    alloc: Global,
    text: &mut Bytes,
    x: &Expanded,
    pairs: &[Pair],
) -> Result<(), NoMemory>
    ensures { OnOk result (text.new ≡ text.old ++ as_html (fields x.now pairs.now)) }
{
    for pair in pairs {
        push_field_item(alloc, text, x, pair.0.param, &pair.1)?;
    }
    Ok(())
}

/// Appends the cell of what the event's role knew before it, and the end of the row.
#[tactic(auto, using(html::proofs::WritingLemmas::written_three))]
pub(crate) fn push_known(
    alloc: Global,
    text: &mut Bytes,
    s: &ShownEvent<'_>,
) -> Result<(), NoMemory>
    ensures { OnOk result (text.new ≡ text.old ++
        as_html (known_cell s.now.x.now (take s.now.index s.now.run.now) s.now.event.now)) }
{
    fill(text, KNOWN, &[])?;
    push_known_params(alloc, text, s, s.x.params.as_slice())?;
    fill(text, EVENT_END, &[])
}

/// Appends those of the parameters that the event's role knew before it.
#[tactic(auto, using(html::proofs::IndexLemmas::enumerate_more, html::proofs::IndexLemmas::enumerate_all))]
fn push_known_params(
    alloc: Global,
    text: &mut Bytes,
    s: &ShownEvent<'_>,
    params: &[ParamInfo],
) -> Result<(), NoMemory>
    requires { length params.now ≤ param_limit }
    ensures { OnOk result (text.new ≡ text.old ++
        as_html (flat_map (λ (p, info). known_item s.now.x.now p
        (value_before s.now.x.now (take s.now.index s.now.run.now) s.now.event.now p))
        (enumerate_from 0 params.now))) }
{
    for (param, _) in params.iter().enumerate() {
        let value = value_before(s, param as u32);
        push_known_item(alloc, text, s.x, param as u32, value)?;
    }
    Ok(())
}

/// Appends a parameter, if it has a value.
fn push_known_item(
    alloc: Global,
    text: &mut Bytes,
    x: &Expanded,
    param: u32,
    value: Option<Value>,
) -> Result<(), NoMemory>
    ensures { OnOk result (text.new ≡ text.old ++ as_html (known_item x.now param value)) }
{
    match value {
        Some(value) => push_field_item(alloc, text, x, param, &value),
        None => Ok(()),
    }
}

/// Appends a parameter and its value.
fn push_field_item(
    alloc: Global,
    text: &mut Bytes,
    x: &Expanded,
    param: u32,
    value: &Value,
) -> Result<(), NoMemory>
    ensures { OnOk result (text.new ≡ text.old ++ as_html (field_item x.now param value.now)) }
{
    let mut words = Bytes::new(alloc);
    push_field(&mut words, x, param, value)?;
    fill(text, FIELD, &[Fragment::Words(words.as_slice())])
}
