use super::fixtures::{TALK, admitted, alone};
use bspl_types::{Admitted, Event, Instance, Key, Text32, Value, Values};
use durable_store::{DurableStore, StartRefusal};
use role_journal::{Disk, MemDisk, append, count_places};
use stamped_history::Entry;
use std::alloc::Global;
use std::test::Fail;

/// The bytes of three places.
const SIZE: u64 = 1686;

/// What a start finds on a disk of three places.
enum Found {
    Entries(u32),
    Alien(u32),
}

/// Bytes that are put on a disk with B's receipt of `ask` and its emission of `tell`, and what a
/// start under the key 1 then finds. A place has 562 bytes: its gate, the kind at 1, the message at
/// 2, the stamp at 6, the number at 14, and from 18 on a field of 34 bytes for each value.
struct Row {
    bytes: &'static [(u64, u8)],
    found: Found,
}

const ROWS: &[Row] = &[
    // both entries, as they were written
    Row {
        bytes: &[],
        found: Found::Entries(2),
    },
    // a value that is neither a number nor a text
    Row {
        bytes: &[(18, 2)],
        found: Found::Alien(0),
    },
    // a number of seven bytes
    Row {
        bytes: &[(19, 7)],
        found: Found::Alien(0),
    },
    // a text of 33 bytes
    Row {
        bytes: &[(53, 33)],
        found: Found::Alien(0),
    },
    // a byte behind the text `ab`
    Row {
        bytes: &[(56, 97)],
        found: Found::Alien(0),
    },
    // a byte behind the two values
    Row {
        bytes: &[(86, 1)],
        found: Found::Alien(0),
    },
    // neither an emission nor a receipt
    Row {
        bytes: &[(1, 2)],
        found: Found::Alien(0),
    },
    // a third message
    Row {
        bytes: &[(2, 2)],
        found: Found::Alien(0),
    },
    // an emission of `ask`, which is A's
    Row {
        bytes: &[(1, 0)],
        found: Found::Alien(0),
    },
    // the stamp 0
    Row {
        bytes: &[(6, 0)],
        found: Found::Alien(0),
    },
    // another key than 1
    Row {
        bytes: &[(20, 2)],
        found: Found::Alien(0),
    },
    // a receipt may have any number
    Row {
        bytes: &[(14, 5)],
        found: Found::Entries(2),
    },
    // a stamp that does not rise
    Row {
        bytes: &[(568, 2)],
        found: Found::Alien(1),
    },
    // an emission without the next stamp
    Row {
        bytes: &[(568, 4)],
        found: Found::Alien(1),
    },
    // an emission with another number than its index
    Row {
        bytes: &[(576, 2)],
        found: Found::Alien(1),
    },
    // another text x than the one that is known
    Row {
        bytes: &[(616, 98)],
        found: Found::Alien(1),
    },
    // an open place after a closed one
    Row {
        bytes: &[(0, 0)],
        found: Found::Alien(1),
    },
    // a gate of 0 or 2 is closed
    Row {
        bytes: &[(562, 0)],
        found: Found::Entries(1),
    },
    Row {
        bytes: &[(562, 2)],
        found: Found::Entries(1),
    },
    Row {
        bytes: &[(562, 0), (1124, 1)],
        found: Found::Alien(2),
    },
    // an open place of zeros
    Row {
        bytes: &[(1124, 1)],
        found: Found::Alien(2),
    },
];

/// B's receipt of `ask` under the key 1, with the text `ab`.
fn asked(stamp: u64) -> Entry {
    Entry {
        event: Event::Receive(Instance {
            message: 0,
            key: Key::of(&[Value::Number(1)]),
            values: Values::of(&[Value::Number(1), Value::Text(Text32::of(b"ab"))]),
        }),
        stamp,
        number: 0,
    }
}

/// B's emission of `tell` after it.
fn told() -> Entry {
    Entry {
        event: Event::Emit(Instance {
            message: 1,
            key: Key::of(&[Value::Number(1)]),
            values: Values::of(&[
                Value::Number(1),
                Value::Text(Text32::of(b"ab")),
                Value::Number(9),
            ]),
        }),
        stamp: 3,
        number: 1,
    }
}

/// A disk of three places, with these entries in the first two.
fn disk_of(alloc: Global, first: &Entry, second: &Entry) -> Result<MemDisk, Fail> {
    let mut disk = MemDisk::new(alloc, SIZE)?;
    if count_places(&disk) < 2 || append(&mut disk, 0, first).is_err() {
        return Err("the first entry is not written".into());
    }
    if count_places(&disk) < 2 || append(&mut disk, 1, second).is_err() {
        return Err("the second entry is not written".into());
    }
    Ok(disk)
}

/// Puts the byte on the disk.
fn put(disk: &mut MemDisk, at: u64, byte: u8) -> Result<(), Fail> {
    if at >= disk.size() || disk.write(at, &[byte]).is_err() {
        return Err("the byte is not written".into());
    }
    Ok(())
}

/// Whether B's store, started under the key 1, is so. It has a place for each event.
fn starts_as(alloc: Global, a: &Admitted, disk: MemDisk, wanted: &Found) -> bool {
    let x = a.expanded();
    if x.roles.len() < 2 || x.keys.len() != 1 {
        return false;
    }
    let keys = [Key::of(&[Value::Number(1)])];
    match (DurableStore::start(alloc, a, 1, disk, &keys), wanted) {
        (Ok(started), Found::Entries(count)) => {
            let store = started.store();
            store.len() == *count && u64::from(store.len()) + u64::from(store.spare()) == 3
        }
        (Err((StartRefusal::Alien { place }, _)), Found::Alien(first)) => place == *first,
        (_, _) => false,
    }
}

/// Whether B's store starts from the disk of the row as is wanted.
fn row_holds(alloc: Global, a: &Admitted, row: &Row) -> Result<bool, Fail> {
    let mut disk = disk_of(alloc, &asked(2), &told())?;
    for (at, byte) in row.bytes {
        put(&mut disk, *at, *byte)?;
    }
    Ok(starts_as(alloc, a, disk, &row.found))
}

/// Whether it does so for all rows.
fn rows_hold(alloc: Global) -> Result<bool, Fail> {
    let protocols = alone(alloc, admitted(alloc, TALK)?)?;
    for row in ROWS {
        if !row_holds(alloc, protocols.at(0), row)? {
            return Ok(false);
        }
    }
    Ok(true)
}

/// Whether the same receipt in two places is alien.
fn receipt_comes_once(alloc: Global) -> Result<bool, Fail> {
    let protocols = alone(alloc, admitted(alloc, TALK)?)?;
    let disk = disk_of(alloc, &asked(2), &asked(3))?;
    Ok(starts_as(alloc, protocols.at(0), disk, &Found::Alien(1)))
}

#[test]
fn a_store_starts_from_its_own_entries(rt: HostRuntime) -> Result<(), Fail> {
    assert!(rt; rows_hold(rt.alloc())?);
    assert!(rt; receipt_comes_once(rt.alloc())?);
    Ok(())
}
