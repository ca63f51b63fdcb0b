ghost use Rattle.std.specs.Prelude.{◌≡◌, ◌↔◌, ◌++◌, IsTrue, OnOk};
ghost use Rattle.kept_lines.specs.CrashImage.{IsHalfWritten};
ghost use Rattle.kept_lines.specs.Memory.{half_left};

use list_base::{Bytes, NoMemory};

/// Whether the second bytes may be left where a crash came while the first were written.
pub fn is_half_written(written: &[u8], left: &[u8]) -> bool
    ensures { IsTrue result ↔ IsHalfWritten written.now left.now }
{
    if left.len() > written.len() {
        return false;
    }
    for (index, byte) in left.iter().enumerate() {
        if *byte != written[index] && *byte != 0 {
            return false;
        }
    }
    true
}

/// Puts the first of the bytes at the end, one for each item of `reached`, and a 0 in place of each
/// that did not reach the disk.
#[tactic(auto, using(crate::proofs::HalfLemmas::left_is_half))]
pub(crate) fn push_half_written(
    image: &mut Bytes,
    written: &[u8],
    reached: &[bool],
) -> Result<(), NoMemory>
    ensures exact { OnOk result (image.new ≡ image.old ++ half_left written.now reached.now) }
    ensures half { IsHalfWritten written.now (half_left written.now reached.now) }
{
    for index in 0..written.len().min(reached.len()) {
        image.push(if reached[index] { written[index] } else { 0 })?;
    }
    Ok(())
}
