ghost use Rattle.std.specs.Prelude.{◌≡◌, [], ◌∷◌, ◌++◌, OnOk};
ghost use Rattle.lrat_text.specs.Lrat.{Add, Delete};
ghost use Rattle.lrat_text.specs.Text.{line_text, lits_text, numbers_text};

use clause_core::Lit;
use list_base::{Bytes, NoMemory};
use refutation_log::push_pivot;
use text_lines::push_decimal;

/// Appends the line that adds a clause.
pub(crate) fn push_added(
    text: &mut Bytes,
    id: u64,
    clause: &[Lit],
    hints: &[u32],
) -> Result<(), NoMemory>
    ensures { OnOk result (text.new ≡ text.old ++ line_text (Add id clause.now hints.now)) }
{
    push_number(text, id)?;
    push_lits(text, clause)?;
    text.append(b"0 ")?;
    push_numbers(text, hints)?;
    text.append(b"0\n")
}

/// Appends the line that deletes clauses.
pub(crate) fn push_deleted(text: &mut Bytes, id: u64, numbers: &[u32]) -> Result<(), NoMemory>
    ensures { OnOk result (text.new ≡ text.old ++ line_text (Delete id numbers.now)) }
{
    push_number(text, id)?;
    text.append(b"d ")?;
    push_numbers(text, numbers)?;
    text.append(b"0\n")
}

/// Appends literals, each before a space.
fn push_lits(text: &mut Bytes, lits: &[Lit]) -> Result<(), NoMemory>
    ensures { OnOk result (text.new ≡ text.old ++ lits_text lits.now) }
{
    for lit in lits {
        push_pivot(text, *lit)?;
        text.push(b' ')?;
    }
    Ok(())
}

/// Appends numbers, each before a space.
fn push_numbers(text: &mut Bytes, numbers: &[u32]) -> Result<(), NoMemory>
    ensures { OnOk result (text.new ≡ text.old ++ numbers_text numbers.now) }
{
    for number in numbers {
        push_number(text, u64::from(*number))?;
    }
    Ok(())
}

/// Appends a number and a space.
fn push_number(text: &mut Bytes, number: u64) -> Result<(), NoMemory>
    ensures { OnOk result (text.new ≡ text.old ++ numbers_text (number ∷ [])) }
{
    push_decimal(text, number)?;
    text.push(b' ')
}
