ghost use Rattle.std.specs.Prelude.{◌≡◌, ◌∷◌, ◌++◌, OnOk};
ghost use Rattle.std.specs.List.{enumerate_from, flat_map};
ghost use Rattle.report.specs.WorldText.{cell_field};

use super::fields::{param_name_at, push_count, push_field};
use super::world_rows::RowWriter;
use bspl_types::{Expanded, Value};
use list_base::{Bytes, NoMemory};

/// Writes each row as a line.
#[derive(Clone, Copy)]
pub(crate) struct RowLines<'a> {
    pub(crate) x: &'a Expanded,
}

impl<'a> RowWriter for RowLines<'a> {
    ghost use Rattle.report.specs.WorldText.{row_form};

    ghost form = { λ writer. row_form writer.x.now };

    fn push_row(
        &self,
        text: &mut Bytes,
        number: u64,
        cells: &[Option<Value>],
    ) -> Result<(), NoMemory> {
        text.append(b"row")?;
        push_count(text, number as usize)?;
        push_cells(text, self.x, cells)?;
        text.push(b'\n')
    }
}

/// Appends a field for each parameter.
fn push_cells(text: &mut Bytes, x: &Expanded, cells: &[Option<Value>]) -> Result<(), NoMemory>
    ensures { OnOk result (text.new ≡
        text.old ++ flat_map (λ cell. 32 ∷ cell_field x.now cell) (enumerate_from 0 cells.now)) }
{
    for (param, cell) in cells.iter().enumerate() {
        push_cell(text, x, param, cell)?;
    }
    Ok(())
}

/// Appends a space, and the parameter with its value or with `-`.
fn push_cell(
    text: &mut Bytes,
    x: &Expanded,
    param: usize,
    cell: &Option<Value>,
) -> Result<(), NoMemory>
    ensures { OnOk result (text.new ≡ text.old ++ 32 ∷ cell_field x.now (param, cell.now)) }
{
    push_field(text, param_name_at(x, param))?;
    text.push(b'=')?;
    match cell {
        Some(value) => value.write(text),
        None => text.push(b'-'),
    }
}
