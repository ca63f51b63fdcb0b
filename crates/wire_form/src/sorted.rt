ghost use Rattle.std.specs.Prelude.{◌≡◌, OnOk};
ghost use Rattle.serde_json.specs.Data.{put};
ghost use Rattle.wire_form.specs.inner.Sorted.{IsPlace, members_in};

use super::member::Member;
use list_base::NoMemory;
use std::cmp::Ordering;

/// Puts a member among those in the order of names, in the place of the one that has its name.
#[tactic(auto, using(crate::proofs::SortedLemmas::put_stands, crate::proofs::SortedLemmas::put_goes))]
pub(crate) fn insert<T: Member + Copy>(sorted: &mut Vec<T>, item: T) -> Result<(), NoMemory>
    ensures { OnOk result (members_in T.Member.name T.Member.content sorted.new.items ≡
        put (T.Member.name item) (T.Member.content item)
        (members_in T.Member.name T.Member.content sorted.old.items)) }
{
    match place_of(sorted.as_slice(), item.name()) {
        Ok(index) => sorted[index] = item,
        Err(index) => sorted.insert(index, item)?,
    }
    Ok(())
}

/// The index at which the name stands, or else at which it is to go in.
fn place_of<T: Member>(sorted: &[T], name: &[u8]) -> Result<usize, usize>
    ensures { IsPlace T.Member.name T.Member.content sorted.now name.now result }
{
    let mut index = 0;
    while index < sorted.len() {
        match name.cmp(sorted[index].name()) {
            Ordering::Less => return Err(index),
            Ordering::Equal => return Ok(index),
            Ordering::Greater => index += 1,
        }
    }
    Err(index)
}
