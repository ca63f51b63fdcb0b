ghost use Rattle.std.specs.Prelude.{◌≡◌, ◌≢◌, ◌≤◌, ℕ, MatchOption};
ghost use Rattle.list_base.specs.Numeral.{numeral};

use text_lines::{numerals_differ, read_decimal};

/// The number that a word is, from 0 to the limit.
pub fn count_of(word: &[u8], limit: u32) -> Option<u32>
    ensures { MatchOption result
        ((count : ℕ) → count ≤ limit → word.now ≢ numeral count)
        (λ count. (word.now ≡ numeral count) × (count ≤ limit)) }
{
    // law: two numbers have two numerals
    numerals_differ();
    match read_decimal(word, u64::from(limit)) {
        Ok(count) => Some(count as u32),
        Err(_) => None,
    }
}
