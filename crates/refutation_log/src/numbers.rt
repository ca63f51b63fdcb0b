ghost use Rattle.std.specs.Prelude.{IsErrOf};
ghost use Rattle.refutation_log.specs.LogText.{pivot_text};
ghost use Rattle.refutation_log.specs.NumberRange.{IsInRange};
ghost use Rattle.refutation_log.specs.LineParts.{IsReading};
ghost use Rattle.list_base.specs.Numeral.{numeral};

use super::line_error::LineError;
use clause_core::Lit;
use text_lines::{DecimalError, read_decimal};

/// The largest number of a text.
const LARGEST: u64 = 2_147_483_647;

/// The number that the digits spell, if it is in range. It takes no memory.
pub fn number_of(digits: &[u8]) -> Result<u32, LineError>
    ensures reading { IsReading numeral IsInRange digits.now result }
    ensures memory { ¬ IsErrOf result LineError.NoMemory }
{
    match read_decimal(digits, LARGEST) {
        Err(DecimalError::Form) => Err(LineError::Form),
        Ok(0) | Err(DecimalError::TooLarge) => Err(LineError::Number),
        Ok(number) => Ok(number as u32),
    }
}

/// The literal that the field spells, if its variable is in range. It takes no memory.
pub fn pivot_of(field: &[u8]) -> Result<Lit, LineError>
    ensures reading { IsReading pivot_text (λ pivot. IsInRange pivot.var) field.now result }
    ensures memory { ¬ IsErrOf result LineError.NoMemory }
{
    match field.strip_prefix(b"-") {
        Some(digits) => Ok(Lit {
            var: number_of(digits)?,
            positive: false,
        }),
        None => Ok(Lit {
            var: number_of(field)?,
            positive: true,
        }),
    }
}
