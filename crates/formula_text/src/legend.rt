ghost use Rattle.std.specs.Prelude.{◌≡◌, ◌++◌, ◌+◌, ◌<◌, ◌≤◌, length, map, OnOk};
ghost use Rattle.std.specs.List.{enumerate_from, flat_map};
ghost use Rattle.clause_encoding.specs.Variables.{IsKind, IsSmall, kind_count};
ghost use Rattle.formula_text.specs.FormulaText.{meaning_line};
ghost use Rattle.formula_text.specs.Legend.{legend, occurrences, order, orders, orders_of};
ghost use Rattle.formula_text.specs.Legend.{own_meanings, selection};

use super::kinds::{message_name, param_name, words_of_kind};
use super::meaning::push_meaning;
use super::rest::push_rest;
use bspl_types::{Admitted, Expanded, Property};
use clause_encoding::{Rivals, Variables, rivals_of, variables_of};
use list_base::{Bytes, NoMemory};
use std::alloc::Global;

/// Appends a line for each variable.
pub(crate) fn push_legend(
    text: &mut Bytes,
    alloc: Global,
    property: Property,
    a: &Admitted,
) -> Result<(), NoMemory>
    ensures { OnOk result (text.new ≡ text.old ++ flat_map meaning_line (legend property a.now)) }
{
    let x = a.expanded();
    let vars = variables_of(alloc, property, a)?;
    push_occurrences(text, x, vars)?;
    push_own(text, alloc, property, x)?;
    push_orders(text, x, vars)
}

/// Appends the lines of the event kinds.
pub(crate) fn push_occurrences(
    text: &mut Bytes,
    x: &Expanded,
    vars: Variables,
) -> Result<(), NoMemory>
    requires { IsSmall vars }
    ensures { OnOk result
        (text.new ≡ text.old ++ flat_map meaning_line (occurrences x.now vars)) }
{
    for kind in 1..vars.kinds + 1 {
        let (act, name) = words_of_kind(x, kind);
        push_meaning(text, kind, &[act, name])?;
    }
    Ok(())
}

/// Appends the lines that only the formulas of the property have.
fn push_own(
    text: &mut Bytes,
    alloc: Global,
    property: Property,
    x: &Expanded,
) -> Result<(), NoMemory>
    ensures { OnOk result
        (text.new ≡ text.old ++ flat_map meaning_line (own_meanings property x.now)) }
{
    match property {
        Property::Safety => {
            let rivals = rivals_of(alloc, x)?;
            push_selections(text, x, rivals.as_slice())
        }
        Property::Liveness => push_rest(text, alloc, x),
    }
}

/// Appends the lines of the rivals, whose variables come after the event kinds.
fn push_selections(text: &mut Bytes, x: &Expanded, rivals: &[Rivals]) -> Result<(), NoMemory>
    requires { length rivals.now ≤ 262144 }
    ensures { let numbered = enumerate_from (kind_count x.now + 1) rivals.now in OnOk result
        (text.new ≡ text.old ++ flat_map meaning_line (map (selection x.now) numbered)) }
{
    let mut selector = 2 * x.messages.len() as u32 + 1;
    for pair in rivals {
        push_selection(text, x, selector, *pair)?;
        selector += 1;
    }
    Ok(())
}

/// Appends the line of two rivals.
fn push_selection(
    text: &mut Bytes,
    x: &Expanded,
    selector: u32,
    rivals: Rivals,
) -> Result<(), NoMemory>
    ensures { OnOk result
        (text.new ≡ text.old ++ meaning_line (selection x.now (selector, rivals))) }
{
    let first = message_name(x, rivals.first);
    let second = message_name(x, rivals.second);
    let param = param_name(x, rivals.param);
    push_meaning(
        text,
        selector,
        &[b"rivals", first, second, b"produce", param],
    )
}

/// Appends the lines of the event kinds with each later one.
pub(crate) fn push_orders(text: &mut Bytes, x: &Expanded, vars: Variables) -> Result<(), NoMemory>
    requires { IsSmall vars }
    ensures { OnOk result (text.new ≡ text.old ++ flat_map meaning_line (orders x.now vars)) }
{
    for i in 1..vars.kinds + 1 {
        push_orders_of(text, x, vars, i)?;
    }
    Ok(())
}

/// Appends the lines of the event kind with each later one.
fn push_orders_of(text: &mut Bytes, x: &Expanded, vars: Variables, i: u32) -> Result<(), NoMemory>
    requires small { IsSmall vars }
    requires kind { IsKind vars i }
    ensures { OnOk result
        (text.new ≡ text.old ++ flat_map meaning_line (orders_of x.now vars i)) }
{
    for j in i + 1..vars.kinds + 1 {
        push_order(text, x, vars, i, j)?;
    }
    Ok(())
}

/// Appends the line of two event kinds.
fn push_order(
    text: &mut Bytes,
    x: &Expanded,
    vars: Variables,
    i: u32,
    j: u32,
) -> Result<(), NoMemory>
    requires small { IsSmall vars }
    requires kinds { (IsKind vars i) × (IsKind vars j) }
    requires in_order { i < j }
    ensures { OnOk result (text.new ≡ text.old ++ meaning_line (order x.now vars i j)) }
{
    let variable = vars.before(i, j).var;
    let (first_act, first_name) = words_of_kind(x, i);
    let (act, name) = words_of_kind(x, j);
    push_meaning(
        text,
        variable,
        &[first_act, first_name, b"before", act, name],
    )
}
