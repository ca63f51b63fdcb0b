ghost use Rattle.std.specs.Prelude.{◌<◌, ◌≤◌, length};
ghost use Rattle.order_propagator.specs.inner.Bits.{SetsBit};

use super::bits::{bits_beyond, with_bit, without_bit};
use list_base::NoMemory;
use order_axioms::KindPair;
use std::alloc::Global;

/// For each kind a row with the bits of the kinds after it, and one with those of the kinds before
/// it. The bit of kind 1 is the lowest.
#[derive(Drop)]
pub struct BitRows {
    pub after: Vec<u128>,
    pub before: Vec<u128>,
}

impl BitRows {
    ghost use Rattle.std.specs.Prelude.{◌≡◌, ◌<◌, ◌≤◌, ℕ, IfOk, IfSome, IfNone};
    ghost use Rattle.std.specs.Int.{bit_at};
    ghost use Rattle.order_propagator.specs.inner.BitRows.{AreBlank, HaveRow, HaveRows, SetsArc};
    ghost use Rattle.order_propagator.specs.inner.BitRows.{missing_bit};

    /// No kind comes before another.
    pub fn new(alloc: Global, kinds: u32) -> Result<BitRows, NoMemory>
        requires { kinds ≤ 128 }
        ensures { IfOk result (AreBlank kinds) }
    {
        let rows = kinds as usize + 1;
        Ok(BitRows {
            after: vec![in alloc; 0; rows]?,
            before: vec![in alloc; 0; rows]?,
        })
    }

    /// The first kind of the pair, if there is one, comes before the second from here on.
    pub fn put(&mut self, pair: Option<KindPair>)
        requires { IfSome pair (HaveRows self.old) }
        ensures some { IfSome pair (λ p. SetsArc self.old self.new p 1) }
        ensures none { IfNone pair (self.new ≡ self.old) }
    {
        let Some(pair) = pair else {
            return;
        };
        self.set_bits(pair);
    }

    /// It does not from here on.
    pub fn clear(&mut self, pair: Option<KindPair>)
        requires { IfSome pair (HaveRows self.old) }
        ensures some { IfSome pair (λ p. SetsArc self.old self.new p 0) }
        ensures none { IfNone pair (self.new ≡ self.old) }
    {
        let Some(pair) = pair else {
            return;
        };
        self.clear_bits(pair);
    }

    /// Sets the bits of the pair in both rows.
    fn set_bits(&mut self, pair: KindPair)
        requires { HaveRows self.old pair }
        ensures { SetsArc self.old self.new pair 1 }
    {
        set_bit(&mut self.after, pair.first, pair.second);
        set_bit(&mut self.before, pair.second, pair.first);
    }

    /// Clears them.
    fn clear_bits(&mut self, pair: KindPair)
        requires { HaveRows self.old pair }
        ensures { SetsArc self.old self.new pair 0 }
    {
        clear_bit(&mut self.after, pair.first, pair.second);
        clear_bit(&mut self.before, pair.second, pair.first);
    }

    /// The bits of the kinds that come after `y` and not after `x`, or before `x` and not before
    /// `y`.
    pub fn missing(&self, x: u32, y: u32) -> u128
        requires x { HaveRow self.now x }
        requires y { HaveRow self.now y }
        ensures { (i : ℕ) → i < 128 → bit_at result i ≡ missing_bit self.now x y i }
    {
        let (x, y) = (x as usize, y as usize);
        bits_beyond(self.after[y], self.after[x]) | bits_beyond(self.before[x], self.before[y])
    }
}

/// Sets the bit of kind `y` in the row of kind `x`.
fn set_bit(rows: &mut Vec<u128>, x: u32, y: u32)
    requires row { x < length rows.old.items }
    requires bit { (0 < y) × (y ≤ 128) }
    ensures { SetsBit rows.old.items rows.new.items x y 1 }
{
    let row = x as usize;
    rows[row] = with_bit(rows[row], y - 1);
}

/// Clears the bit of kind `y` in the row of kind `x`.
fn clear_bit(rows: &mut Vec<u128>, x: u32, y: u32)
    requires row { x < length rows.old.items }
    requires bit { (0 < y) × (y ≤ 128) }
    ensures { SetsBit rows.old.items rows.new.items x y 0 }
{
    let row = x as usize;
    rows[row] = without_bit(rows[row], y - 1);
}
