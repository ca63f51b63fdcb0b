ghost use Rattle.std.specs.Prelude.{◌≢◌, [], All, Some, map};
ghost use Rattle.std.specs.List.{join_with_byte};
ghost use Rattle.refutation_log.specs.LogText.{drop_fields};
ghost use Rattle.refutation_log.specs.NumberRange.{IsInRange};
ghost use Rattle.refutation_log.specs.LineParts.{IsReading, IsReadingAmong};
ghost use Rattle.list_base.specs.Numeral.{numeral};
ghost use Rattle.list_base.specs.Lines.{parts_in};

use super::line_error::LineError;
use super::numbers::number_of;
use list_base::{NumberList, Seq};
use std::alloc::Global;
use text_lines::split_once;

/// The numbers of the removal that the line spells.
pub fn drop_of(alloc: Global, line: &[u8]) -> Result<NumberList, LineError>
    ensures { IsReadingAmong (λ numbers. numbers ≢ [])
        (λ numbers. join_with_byte 32 (drop_fields numbers)) (All IsInRange) line.now result }
{
    let (name, fields) = split_once(line, b' ');
    if name != b"drop".as_slice() {
        return Err(LineError::Form);
    }
    match fields {
        None => Err(LineError::Form),
        Some(fields) => numbers_of(alloc, fields),
    }
}

/// The numbers with these fields. A bad number does not end the search for a bad form.
fn numbers_of(alloc: Global, fields: &[u8]) -> Result<NumberList, LineError>
    ensures { IsReading (map numeral) (All IsInRange) (parts_in 32 (Some fields.now)) result }
{
    let mut numbers = Seq::new(alloc);
    let mut in_range = true;
    let mut left = Some(fields);
    while let Some(bytes) = left {
        let (field, rest) = split_once(bytes, b' ');
        match number_of(field) {
            Ok(number) => numbers.push(number)?,
            Err(LineError::Number) => in_range = false,
            Err(error) => return Err(error),
        }
        left = rest;
    }
    if in_range {
        Ok(numbers)
    } else {
        Err(LineError::Number)
    }
}
