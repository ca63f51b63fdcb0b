ghost use Rattle.std.specs.Prelude.{◌≡◌, ◌+◌, ◌^◌, ◌<◌, ◌≤◌, length, take, drop};
ghost use Rattle.std.specs.Prelude.{slice_index_or, vec_len, vec_capacity};
ghost use Rattle.std.specs.List.{sum, count_by};
ghost use Rattle.reorder_net.specs.inner.Slots.{is_held};
ghost use Rattle.reorder_net.specs.inner.Counts.{IsAbove, IsHeldSlot, lowered, raised};

/// Counts one more at the index, which begins a count if it is that after the last.
pub(crate) fn raise(counts: &mut Vec<usize>, index: usize)
    requires within { index ≤ length counts.old.items }
    requires small { slice_index_or counts.old.items index 0 < 2 ^ 63 }
    requires room { index ≡ length counts.old.items → vec_len counts.old < vec_capacity counts.old }
    ensures items { counts.new.items ≡ raised counts.old.items index }
    ensures capacity { vec_capacity counts.new ≡ vec_capacity counts.old }
{
    if index == counts.len() {
        counts.push_reserved(1);
    } else {
        counts[index] += 1;
    }
}

/// Counts one less at the index.
pub(crate) fn lower(counts: &mut Vec<usize>, index: usize)
    requires within { index < length counts.old.items }
    requires some { 0 < slice_index_or counts.old.items index 0 }
    ensures items { counts.new.items ≡ lowered counts.old.items index }
    ensures capacity { vec_capacity counts.new ≡ vec_capacity counts.old }
{
    counts[index] -= 1;
}

/// The first index from one on before which there are more than as many, and what is left there.
pub(crate) fn first_above(counts: &[usize], from: usize, many: usize) -> (usize, usize)
    requires { many < sum (drop from counts.now) }
    ensures { IsAbove counts.now (sum (take from counts.now) + many) result.0 result.1 }
{
    let mut index = from;
    let mut left = many;
    while left >= counts[index] {
        left -= counts[index];
        index += 1;
    }
    (index, left)
}

/// The slot from one on whose envelope is held, after as many that are held. Which marks are set is
/// hard to foresee, so a mark is subtracted and not tested.
pub(crate) fn slot_after(marks: &[bool], from: usize, many: usize) -> usize
    requires { many < count_by is_held (drop from marks.now) }
    ensures { IsHeldSlot marks.now (count_by is_held (take from marks.now) + many) result }
{
    let mut slot = from;
    let mut left = many;
    while left >= usize::from(marks[slot]) {
        left -= usize::from(marks[slot]);
        slot += 1;
    }
    slot
}
