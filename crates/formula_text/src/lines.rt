ghost use Rattle.std.specs.Prelude.{◌≡◌, ◌≤◌, ◌++◌, length, OnOk};
ghost use Rattle.dimacs.specs.Dimacs.{clause_limit};
ghost use Rattle.formula_text.specs.FormulaText.{clause_line, formula_lines, header_line};

use clause_core::{Formula, Lit};
use list_base::{Bytes, NoMemory};
use refutation_log::push_pivot;
use text_lines::push_decimal;

/// Appends the header and the clauses of a formula.
pub(crate) fn push_formula(text: &mut Bytes, formula: &Formula) -> Result<(), NoMemory>
    requires { length formula.now.clauses ≤ clause_limit }
    ensures { OnOk result (text.new ≡ text.old ++ formula_lines formula.now) }
{
    push_header(text, formula)?;
    for clause in formula.clauses.as_slice() {
        push_clause(text, clause.lits())?;
    }
    Ok(())
}

/// Appends the header.
fn push_header(text: &mut Bytes, formula: &Formula) -> Result<(), NoMemory>
    requires { length formula.now.clauses ≤ clause_limit }
    ensures { OnOk result (text.new ≡ text.old ++ header_line formula.now) }
{
    text.append(b"p cnf ")?;
    push_decimal(text, u64::from(formula.vars))?;
    text.push(b' ')?;
    push_decimal(text, formula.clauses.len() as u64)?;
    text.push(b'\n')
}

/// Appends the line of a clause.
fn push_clause(text: &mut Bytes, lits: &[Lit]) -> Result<(), NoMemory>
    ensures { OnOk result (text.new ≡ text.old ++ clause_line lits.now) }
{
    for lit in lits {
        push_pivot(text, *lit)?;
        text.push(b' ')?;
    }
    text.append(b"0\n")
}
