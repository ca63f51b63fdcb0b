ghost use Rattle.std.specs.Prelude.{◌≡◌, ◌++◌, List, OnOk};
ghost use Rattle.std.specs.List.{flat_map};
ghost use Rattle.bspl_types.specs.declared.event.Event.{Event};
ghost use Rattle.html.specs.Fragment.{as_html};
ghost use Rattle.page_sections.specs.WorldSection.{param_head, value_cell, value_heads};
ghost use Rattle.page_sections.specs.inner.Values.{AppendsValues};
ghost use Rattle.report.specs.WorldRows.{IsRunOfWorld};

use super::wording::{HEADS_END, NO_VALUE, ROW_END, VALUE, VALUES_HEAD, VALUES_ROW, VALUES_START};
use agent_scripts::Script;
use bspl_types::{Expanded, ParamInfo, Value};
use html::{Fragment, TABLE_END, fill, push_fragments};
use list_base::{Bytes, NoMemory};
use report::{RowWriter, push_rows};
use std::alloc::Global;
use world_run::World;

/// Appends the table of what some role knows of each parameter under each workload key.
pub(crate) fn push_values(
    alloc: Global,
    text: &mut Bytes,
    x: &Expanded,
    script: &Script,
    world: &World,
) -> Result<(), NoMemory>
    ensures { OnOk result ((run : List Event) → IsRunOfWorld x.now world.now.desks run →
        AppendsValues x.now script.now.keys run text.old text.new) }
{
    push_heads(text, x)?;
    push_rows(alloc, text, x, script, world, &TableRows { alloc })?;
    push_fragments(text, &[Fragment::Tag(TABLE_END)])
}

/// Appends the caption and the heads of the columns.
fn push_heads(text: &mut Bytes, x: &Expanded) -> Result<(), NoMemory>
    ensures { OnOk result (text.new ≡ text.old ++ as_html (value_heads x.now)) }
{
    push_fragments(text, &[Fragment::Tag(VALUES_START)])?;
    push_params(text, x.params.as_slice())?;
    push_fragments(text, &[Fragment::Tag(HEADS_END)])
}

/// Appends the heads of the parameters' columns.
#[tactic(auto, using(html::proofs::WritingLemmas::written_next))]
fn push_params(text: &mut Bytes, params: &[ParamInfo]) -> Result<(), NoMemory>
    ensures { OnOk result (text.new ≡ text.old ++ as_html (flat_map param_head params.now)) }
{
    for param in params {
        push_param(text, param)?;
    }
    Ok(())
}

/// Appends the head of a parameter's column.
fn push_param(text: &mut Bytes, param: &ParamInfo) -> Result<(), NoMemory>
    ensures { OnOk result (text.new ≡ text.old ++ as_html (param_head param.now)) }
{
    fill(text, VALUES_HEAD, &[Fragment::Words(param.name.as_slice())])
}

/// Writes each row as a row of a table.
#[derive(Clone, Copy)]
struct TableRows {
    alloc: Global,
}

impl RowWriter for TableRows {
    ghost use Rattle.page_sections.specs.WorldSection.{row_tags};

    ghost form = { λ _. row_tags };

    fn push_row(
        &self,
        text: &mut Bytes,
        number: u64,
        cells: &[Option<Value>],
    ) -> Result<(), NoMemory> {
        fill(text, VALUES_ROW, &[Fragment::Number(number)])?;
        push_cells(self.alloc, text, cells)?;
        push_fragments(text, &[Fragment::Tag(ROW_END)])
    }
}

/// Appends the cell of each parameter.
#[tactic(auto, using(html::proofs::WritingLemmas::written_next))]
fn push_cells(alloc: Global, text: &mut Bytes, cells: &[Option<Value>]) -> Result<(), NoMemory>
    ensures { OnOk result (text.new ≡ text.old ++ as_html (flat_map value_cell cells.now)) }
{
    for cell in cells {
        push_cell(alloc, text, cell)?;
    }
    Ok(())
}

/// Appends the cell of a value, or of a parameter that no role knows.
fn push_cell(alloc: Global, text: &mut Bytes, cell: &Option<Value>) -> Result<(), NoMemory>
    ensures { OnOk result (text.new ≡ text.old ++ as_html (value_cell cell.now)) }
{
    let Some(value) = cell else {
        return push_fragments(text, &[Fragment::Tag(NO_VALUE)]);
    };
    let mut words = Bytes::new(alloc);
    value.write(&mut words)?;
    fill(text, VALUE, &[Fragment::Words(words.as_slice())])
}
