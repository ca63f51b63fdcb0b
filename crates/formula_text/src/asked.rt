ghost use Rattle.std.specs.Prelude.{◌≡◌, ◌++◌, ◌≤◌, length, IfOk, OnOk};
ghost use Rattle.clause_encoding.specs.Formula.{plain_variables};
ghost use Rattle.clause_encoding.specs.Variables.{variable_count};
ghost use Rattle.formula_text.specs.AskedText.{FitsText, IsQuestionFormulaText};
ghost use Rattle.formula_text.specs.AskedText.{question_line, text_of_question};
ghost use Rattle.questions.specs.Subject.{IsAbout};

use super::asked_legend::push_question_legend;
use super::lines::push_formula;
use bspl_types::{Admitted, Expanded};
use clause_core::Formula;
use list_base::{Bytes, NoMemory};
use question_formula::plain_question_formula;
use questions::Question;
use std::alloc::Global;

/// More variables than a text may name count as memory run out.
const MOST_VARIABLES: u32 = 16_777_215;

/// The text of the question's formula, after the question and what the variables mean.
pub fn question_formula_text(
    alloc: Global,
    a: &Admitted,
    q: &Question,
    spelling: &[u8],
) -> Result<Bytes, NoMemory>
    requires { IsAbout a.now q.now }
    ensures { IfOk result (IsQuestionFormulaText spelling.now a.now q.now) }
{
    let formula = plain_question_formula(alloc, a, q)?;
    if formula.vars > MOST_VARIABLES {
        return Err(NoMemory);
    }
    asked_text(alloc, a.expanded(), &formula, spelling)
}

/// The text of a formula whose variables are those of the kinds, those of order and parts.
fn asked_text(
    alloc: Global,
    x: &Expanded,
    formula: &Formula,
    spelling: &[u8],
) -> Result<Bytes, NoMemory>
    requires fits { FitsText formula.now }
    requires order { variable_count (plain_variables x.now) ≤ formula.now.vars }
    ensures { IfOk result (λ text. text ≡ text_of_question spelling.now x.now formula.now) }
{
    let mut text = Bytes::new(alloc);
    push_question(&mut text, spelling)?;
    push_question_legend(&mut text, x, formula.vars)?;
    push_formula(&mut text, formula)?;
    Ok(text)
}

/// Appends the line that says which question it is.
fn push_question(text: &mut Bytes, spelling: &[u8]) -> Result<(), NoMemory>
    ensures { OnOk result (text.new ≡ text.old ++ question_line spelling.now) }
{
    text.append(b"c ask ")?;
    text.append(spelling)?;
    text.push(b'\n')
}
