ghost use Rattle.std.specs.Prelude.{ℕ, MatchOption};
ghost use Rattle.command_line.specs.Number.{IsNumberIn};

use text_lines::read_decimal;

/// The number that the text is in decimal, if it is one from `least` to `most`.
pub fn number_in(text: &[u8], least: u32, most: u32) -> Option<u32>
    ensures { MatchOption result ((n : ℕ) → ¬ IsNumberIn least most text.now n)
        (IsNumberIn least most text.now) }
{
    let value = match read_decimal(text, u64::from(most)) {
        Ok(value) => value,
        Err(_) => return None,
    };
    if value < u64::from(least) {
        return None;
    }
    Some(value as u32)
}
