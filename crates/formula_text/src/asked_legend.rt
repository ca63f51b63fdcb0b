ghost use Rattle.std.specs.Prelude.{◌≡◌, ◌++◌, ◌+◌, ◌-◌, ◌≤◌, map, OnOk};
ghost use Rattle.std.specs.List.{flat_map, range_with_len};
ghost use Rattle.clause_encoding.specs.Formula.{plain_variables};
ghost use Rattle.clause_encoding.specs.Variables.{IsSmall, variable_count};
ghost use Rattle.dimacs.specs.Dimacs.{variable_limit};
ghost use Rattle.formula_text.specs.AskedText.{part, question_legend};
ghost use Rattle.formula_text.specs.FormulaText.{meaning_line};

use super::legend::{push_occurrences, push_orders};
use super::meaning::push_meaning;
use bspl_types::Expanded;
use clause_encoding::{Variables, plain_variables};
use list_base::{Bytes, NoMemory};

/// Appends a line for each variable of a question's formula, which has `count` of them.
pub(crate) fn push_question_legend(
    text: &mut Bytes,
    x: &Expanded,
    count: u32,
) -> Result<(), NoMemory>
    requires order { variable_count (plain_variables x.now) ≤ count }
    requires few { count ≤ variable_limit }
    ensures { OnOk result
        (text.new ≡ text.old ++ flat_map meaning_line (question_legend x.now count)) }
{
    let vars = plain_variables(x);
    push_occurrences(text, x, vars)?;
    push_orders(text, x, vars)?;
    push_parts(text, last_of_order(vars), count)
}

/// The last variable of order.
fn last_of_order(vars: Variables) -> u32
    requires { IsSmall vars }
    ensures { result ≡ variable_count vars }
{
    match vars.kinds {
        0 => vars.order_base,
        kinds => vars.order_base + kinds * (kinds - 1) / 2,
    }
}

/// Appends the lines of the variables past the others, up to `count`: each stands for a part of the
/// question.
fn push_parts(text: &mut Bytes, others: u32, count: u32) -> Result<(), NoMemory>
    requires order { others ≤ count }
    requires few { count ≤ variable_limit }
    ensures { OnOk result (text.new ≡ text.old ++
        flat_map meaning_line (map part (range_with_len (others + 1) (count - others)))) }
{
    for variable in others + 1..count + 1 {
        push_meaning(text, variable, &[b"part"])?;
    }
    Ok(())
}
