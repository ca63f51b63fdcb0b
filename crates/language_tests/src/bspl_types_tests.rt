use bspl_types::{Key, Text32, Value, Values};
use key_table::KeyTable;
use std::alloc::Global;
use std::test::Fail;

/// Lists of numbers that are keys, no two of them equal.
const LISTS: &[&[u64]] = &[
    &[0],
    &[1],
    &[1, 0],
    &[0, 1],
    &[1, 0, 0],
    &[1, 0, 0, u64::MAX],
];

/// The numbers of a key that no list is.
const ABSENT: &[u64] = &[0, 0];

/// The numbers as values, if there are at most four.
fn cells(numbers: &[u64]) -> Option<[Value; 4]> {
    if numbers.len() > 4 {
        return None;
    }
    let mut cells = [Value::Number(0); 4];
    for (index, number) in numbers.iter().enumerate() {
        cells[index] = Value::Number(*number);
    }
    Some(cells)
}

/// The key of these numbers, if it has one to four.
pub(crate) fn key(numbers: &[u64]) -> Option<Key> {
    let cells = cells(numbers)?;
    if numbers.is_empty() || numbers.len() > 4 {
        return None;
    }
    Some(Key::of(&cells[..numbers.len()]))
}

/// The values of these numbers, if there are at most four.
pub(crate) fn values(numbers: &[u64]) -> Option<Values> {
    let cells = cells(numbers)?;
    if numbers.len() > 4 {
        return None;
    }
    Some(Values::of(&cells[..numbers.len()]))
}

/// Whether the keys of the two lists, and their values, are the same exactly if that is wanted.
fn are_told_apart(one: &[u64], other: &[u64], same: bool) -> Option<bool> {
    let (k, l) = (key(one)?, key(other)?);
    let (v, w) = (values(one)?, values(other)?);
    let keys = k.same(&l) == same && (k == l) == same;
    Some(keys && v.same(&w) == same && k.as_slice() == v.as_slice() && k.len() == one.len())
}

#[test]
fn keys_and_values_are_distinct(rt: HostRuntime) {
    for (i, one) in LISTS.iter().enumerate() {
        for (j, other) in LISTS.iter().enumerate() {
            assert!(rt; are_told_apart(one, other, i == j) == Some(true));
        }
    }
    assert!(rt; Values::of(&[]).is_empty());
}

#[test]
fn texts_are_held_in_place(rt: HostRuntime) {
    let text = Text32::of(b"a\"b");
    assert!(rt; text.as_slice() == b"a\"b".as_slice() && text.len() == 3 && text.at(1) == b'"');
    assert!(rt; text == Text32::of(b"a\"b") && text != Text32::of(b"a\"b\x00"));
    assert!(rt; !Value::Number(7).same(&Value::Text(Text32::of(b"7"))));
}

/// The keys of the lists, in a table.
fn tabled(alloc: Global) -> Result<KeyTable, Fail> {
    let mut table = KeyTable::new(alloc);
    for list in LISTS {
        let key = key(list).ok_or("no key")?;
        if !table.has(&key) {
            table.add(&key)?;
        }
    }
    Ok(table)
}

/// The index that is found of the key of these numbers.
fn found(table: &KeyTable, list: &[u64]) -> Option<usize> {
    let key = key(list)?;
    table.index_of(&key)
}

/// Whether each list has its index, and the absent one has none.
fn are_found(table: &KeyTable) -> bool {
    let mut lists = LISTS.iter().enumerate();
    lists.all(|(number, list)| found(table, list) == Some(number)) && found(table, ABSENT).is_none()
}

/// Whether the key of a text, once it is added, is another than that of the number.
fn is_text_apart(table: &mut KeyTable) -> Result<bool, Fail> {
    let text = Key::of(&[Value::Text(Text32::of(b"1"))]);
    if table.has(&text) {
        return Ok(false);
    }
    table.add(&text)?;
    Ok(table.index_of(&text) == Some(LISTS.len()) && table.at(LISTS.len()) == text)
}

#[test]
fn keys_are_found_in_a_table(rt: HostRuntime) -> Result<(), Fail> {
    let mut table = tabled(rt.alloc())?;
    assert!(rt; are_found(&table) && table.len() == LISTS.len());
    assert!(rt; is_text_apart(&mut table)?);
    Ok(())
}
