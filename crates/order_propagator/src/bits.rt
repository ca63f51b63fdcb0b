ghost use Rattle.std.specs.Prelude.{◌≡◌, ◌≢◌, ℕ, ◌-◌, ◌<◌, ◌≤◌, IfSome, IfNone, min};
ghost use Rattle.std.specs.Int.{bit_at};
ghost use Rattle.order_propagator.specs.inner.Bits.{HasNoneFrom, IsLowestFrom};

/// The word with the bit at the place.
pub fn with_bit(word: u128, place: u32) -> u128
    requires { place < 128 }
    ensures set { bit_at result place ≡ 1 }
    ensures others { (i : ℕ) → i ≢ place → bit_at result i ≡ bit_at word i }
{
    word | (1 << place)
}

/// The word without the bit at the place.
pub fn without_bit(word: u128, place: u32) -> u128
    requires { place < 128 }
    ensures clear { bit_at result place ≡ 0 }
    ensures others { (i : ℕ) → i < 128 → i ≢ place → bit_at result i ≡ bit_at word i }
{
    word & !(1 << place)
}

/// The bits of the word that the other one has not.
pub fn bits_beyond(word: u128, other: u128) -> u128
    ensures { (i : ℕ) → i < 128 → bit_at result i ≡ min (bit_at word i) (1 - bit_at other i) }
{
    word & !other
}

/// The lowest bit of the word from the place on.
pub fn lowest_from(word: u128, place: u32) -> Option<u32>
    requires { place < 128 }
    ensures some { IfSome result (IsLowestFrom word place) }
    ensures none { IfNone result (HasNoneFrom word place) }
{
    let left = word & (u128::MAX << place);
    if left == 0 {
        return None;
    }
    Some(left.trailing_zeros())
}
