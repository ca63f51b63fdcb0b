use list_base::{NoMemory, NumberList, TryClone};
use std::alloc::Global;
use std::test::Fail;

const FOUR: &[u32] = &[4, 5, 6, 7];

const CHANGED: &[u32] = &[4, 8, 9];

/// The numbers of `FOUR`, two of them put at the end one by one, and two at once.
fn four(alloc: Global) -> Result<NumberList, NoMemory> {
    let mut list = NumberList::with_room(alloc, 1)?;
    list.push(4)?;
    list.push(5)?;
    list.append(&[6, 7])?;
    Ok(list)
}

/// Whether the list has the numbers of `FOUR`.
fn is_four(list: &NumberList) -> bool {
    list.as_slice() == FOUR && list.len() == 4 && *list.at(1) == 5
}

/// Whether the numbers of `FOUR` are taken from the end of the list, and none is left.
fn is_emptied(list: &mut NumberList) -> bool {
    for want in &[Some(7), Some(6), Some(5), Some(4), None] {
        if list.pop() != *want {
            return false;
        }
    }
    list.is_empty()
}

/// Whether a copy stays as it is when the list is emptied.
fn keeps_its_copy(list: &mut NumberList) -> Result<bool, NoMemory> {
    let copy = list.try_clone()?;
    Ok(is_emptied(list) && copy.as_slice() == FOUR)
}

/// Whether a list has what is put at its end, and gives it back.
fn grows_and_shrinks(alloc: Global) -> Result<bool, NoMemory> {
    let mut list = four(alloc)?;
    Ok(is_four(&list) && keeps_its_copy(&mut list) == Ok(true))
}

#[test]
fn lists_grow_and_shrink_at_the_end(rt: HostRuntime) -> Result<(), Fail> {
    assert!(rt; grows_and_shrinks(rt.alloc()) == Ok(true));
    Ok(())
}

#[test]
fn items_are_replaced_and_changed(rt: HostRuntime) -> Result<(), Fail> {
    let mut list = NumberList::from_slice(rt.alloc(), &[4, 5, 6])?;
    assert!(rt; list.len() == 3);
    assert!(rt; list.replace(1, 8) == 5);
    assert!(rt; list.len() == 3);
    let last = list.at_mut(2);
    *last += 3;
    assert!(rt; list.as_slice() == CHANGED);
    Ok(())
}
