ghost use Rattle.std.specs.Prelude.{◌≡◌, ◌++◌, ◌==◌, ◌&&◌, false, slice_index_or, OnOk};
ghost use Rattle.std.specs.List.{enumerate_from, flat_map, list_any};
ghost use Rattle.bspl_types.specs.Adornment.{has_value};
ghost use Rattle.bspl_types.specs.Choice.{is_out};
ghost use Rattle.html.specs.Fragment.{as_html};
ghost use Rattle.html.specs.Tables.{is_source, role_head, source_cell, source_head, source_item};
ghost use Rattle.html.specs.Tables.{source_name, source_row, source_table};

use super::fragment::{Fragment, fill};
use super::names::is_out;
use super::wording::{
    CELL, CELL_END, HEADS_END, KNOWLEDGE, ROLE_HEAD, SOURCE, SOURCES, SOURCES_END, TABLE_END,
};
use bspl_types::{Carried, Expanded, Message, Name, ParamInfo};
use list_base::{Bytes, NoMemory};

/// Appends the table of what each role can learn, and from which messages. `dead` says by index
/// which of them no legal run sends.
pub fn push_sources(text: &mut Bytes, x: &Expanded, dead: &[bool]) -> Result<(), NoMemory>
    ensures { OnOk result (text.new ≡ text.old ++ as_html (source_table x.now dead.now)) }
{
    push_head(text, x)?;
    push_rows(text, x, dead, x.params.as_slice())?;
    fill(text, TABLE_END, &[])
}

/// Appends the caption and the heads of the columns.
fn push_head(text: &mut Bytes, x: &Expanded) -> Result<(), NoMemory>
    ensures { OnOk result (text.new ≡ text.old ++ as_html (source_head x.now)) }
{
    fill(text, KNOWLEDGE, &[])?;
    push_roles(text, x.roles.as_slice())?;
    fill(text, HEADS_END, &[])
}

/// Appends the heads of the roles' columns.
#[tactic(auto, using(crate::proofs::WritingLemmas::written_next))]
fn push_roles(text: &mut Bytes, roles: &[Name]) -> Result<(), NoMemory>
    ensures { OnOk result (text.new ≡ text.old ++ as_html (flat_map role_head roles.now)) }
{
    for name in roles {
        fill(text, ROLE_HEAD, &[Fragment::Words(name.as_slice())])?;
    }
    Ok(())
}

/// Appends the row of each parameter.
#[tactic(auto, using(crate::proofs::IndexLemmas::enumerate_more, crate::proofs::IndexLemmas::enumerate_all))]
fn push_rows(
    text: &mut Bytes,
    x: &Expanded,
    dead: &[bool],
    params: &[ParamInfo],
) -> Result<(), NoMemory>
    ensures { OnOk result (text.new ≡
        text.old ++ as_html (flat_map (source_row x.now dead.now) (enumerate_from 0 params.now))) }
{
    for (param, info) in params.iter().enumerate() {
        push_row(text, x, dead, param, info)?;
    }
    Ok(())
}

/// Appends the row of a parameter.
#[tactic(auto, using(crate::proofs::WritingLemmas::written_three))]
fn push_row(
    text: &mut Bytes,
    x: &Expanded,
    dead: &[bool],
    param: usize,
    info: &ParamInfo,
) -> Result<(), NoMemory>
    ensures { OnOk result (text.new ≡
        text.old ++ as_html (source_row x.now dead.now (param, info.now))) }
{
    fill(text, SOURCES, &[Fragment::Words(info.name.as_slice())])?;
    push_cells(text, x, dead, param, x.roles.as_slice())?;
    fill(text, SOURCES_END, &[])
}

/// Appends the cell of each role.
#[tactic(auto, using(crate::proofs::IndexLemmas::enumerate_more, crate::proofs::IndexLemmas::enumerate_all))]
fn push_cells(
    text: &mut Bytes,
    x: &Expanded,
    dead: &[bool],
    param: usize,
    roles: &[Name],
) -> Result<(), NoMemory>
    ensures { OnOk result (text.new ≡
        text.old ++ as_html (flat_map (λ (role, _). source_cell x.now dead.now param role)
        (enumerate_from 0 roles.now))) }
{
    for (role, _) in roles.iter().enumerate() {
        push_cell(text, x, dead, param, role)?;
    }
    Ok(())
}

/// Appends the messages from which the role can learn the parameter.
#[tactic(auto, using(crate::proofs::WritingLemmas::written_three))]
fn push_cell(
    text: &mut Bytes,
    x: &Expanded,
    dead: &[bool],
    param: usize,
    role: usize,
) -> Result<(), NoMemory>
    ensures { OnOk result (text.new ≡
        text.old ++ as_html (source_cell x.now dead.now param role)) }
{
    fill(text, CELL, &[])?;
    push_items(text, x.messages.as_slice(), dead, param, role)?;
    fill(text, CELL_END, &[])
}

/// Appends the names of those of the messages from which the role can learn the parameter.
#[tactic(auto, using(crate::proofs::IndexLemmas::enumerate_more, crate::proofs::IndexLemmas::enumerate_all))]
fn push_items(
    text: &mut Bytes,
    messages: &[Message],
    dead: &[bool],
    param: usize,
    role: usize,
) -> Result<(), NoMemory>
    ensures { OnOk result (text.new ≡
        text.old ++ as_html (flat_map (source_item dead.now param role)
        (enumerate_from 0 messages.now))) }
{
    for (index, message) in messages.iter().enumerate() {
        push_item(text, message, is_dead_at(dead, index), param, role)?;
    }
    Ok(())
}

/// Whether the message with this index is dead.
fn is_dead_at(dead: &[bool], index: usize) -> bool
    ensures { result ≡ slice_index_or dead.now index false }
{
    match dead.get(index) {
        Some(dead) => *dead,
        None => false,
    }
}

/// Appends the name of the message, if it is not dead and the role can learn the parameter from it.
fn push_item(
    text: &mut Bytes,
    message: &Message,
    dead: bool,
    param: usize,
    role: usize,
) -> Result<(), NoMemory>
    ensures { OnOk result (text.new ≡
        text.old ++ as_html (source_name dead param role message.now)) }
{
    if !dead && is_source(message, param, role) {
        return fill(text, SOURCE, &[Fragment::Words(message.name.as_slice())]);
    }
    Ok(())
}

/// Whether the message makes the parameter known to the role.
fn is_source(message: &Message, param: usize, role: usize) -> bool
    ensures { result ≡ is_source param role message.now }
{
    let carried = message.carried.as_slice();
    (message.sender as usize == role && produces(carried, param))
        || (message.receiver as usize == role && tells(carried, param))
}

/// Whether the parameter is among these, adorned `out`.
fn produces(carried: &[Carried], param: usize) -> bool
    ensures { result ≡ list_any (λ c. c.param == param && is_out c.adornment) carried.now }
{
    carried
        .iter()
        .any(|c| c.param as usize == param && is_out(c.adornment))
}

/// Whether the parameter is among these, adorned `in` or `out`.
fn tells(carried: &[Carried], param: usize) -> bool
    ensures { result ≡ list_any (λ c. c.param == param && has_value c.adornment) carried.now }
{
    carried
        .iter()
        .any(|c| c.param as usize == param && c.adornment.has_value())
}
