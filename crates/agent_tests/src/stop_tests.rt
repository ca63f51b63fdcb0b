ghost use Rattle.std.specs.Prelude.{◌≡◌, ◌≤◌, ◌+◌};

use super::durable_fixtures::{Answer, ask, receive, start, tell};
use super::fixtures::{TALK, admitted, alone};
use bspl_types::Admitted;
use durable_store::DurableStore;
use role_journal::{Disk, StopDisk};
use std::alloc::Global;
use std::test::Fail;

/// The bytes of three places.
const SIZE: u64 = 1686;

/// The call of the disk that fails, and how many entries a start finds after a restart that leaves
/// the byte 0, 1 or 255 where nothing was synced.
struct Row {
    stop: u64,
    found: [u32; 3],
}

const ROWS: &[Row] = &[
    // a start syncs and reads the three gates
    Row {
        stop: 1,
        found: [0, 0, 0],
    },
    Row {
        stop: 4,
        found: [0, 0, 0],
    },
    // the receipt: its body is written and synced while its gate is closed
    Row {
        stop: 5,
        found: [0, 0, 0],
    },
    Row {
        stop: 6,
        found: [0, 0, 0],
    },
    // its gate is written and synced, and 1 opens it
    Row {
        stop: 7,
        found: [0, 1, 0],
    },
    Row {
        stop: 8,
        found: [0, 1, 0],
    },
    // the emission
    Row {
        stop: 9,
        found: [1, 1, 1],
    },
    Row {
        stop: 10,
        found: [1, 1, 1],
    },
    Row {
        stop: 11,
        found: [1, 2, 1],
    },
    Row {
        stop: 12,
        found: [1, 2, 1],
    },
    // no call comes that late
    Row {
        stop: 1000,
        found: [2, 2, 2],
    },
];

/// Receives `ask` and emits `tell`, until the disk fails.
fn play(d: &mut DurableStore<StopDisk>)
    ensures { d.new.disk.faults ≤ d.old.disk.faults + 1 }
{
    let Some(m) = ask(b"ab") else {
        return;
    };
    match receive(d, &m) {
        Answer::Fault => {}
        _ => {
            tell(d);
        }
    }
}

/// The disk after a store was started from it and played.
fn played(alloc: Global, a: &Admitted, disk: StopDisk) -> StopDisk
    requires { disk.faults ≤ 3 }
    ensures { result.faults ≤ disk.faults + 1 }
{
    match start(alloc, a, disk) {
        Ok(mut d) => {
            play(&mut d);
            let (_, disk) = d.into_parts();
            disk
        }
        Err(disk) => disk,
    }
}

/// How many entries a start finds on the disk after a restart; and the disk.
fn found(alloc: Global, a: &Admitted, mut disk: StopDisk) -> (Option<u32>, StopDisk)
    requires { disk.faults ≤ 3 }
    ensures { result.1.faults ≤ disk.faults + 1 }
{
    disk.restart();
    match start(alloc, a, disk) {
        Ok(d) => {
            let count = d.store().len();
            let (_, disk) = d.into_parts();
            (Some(count), disk)
        }
        Err(disk) => (None, disk),
    }
}

/// Whether a start finds as many entries as is wanted after the stop, and both after another play.
fn finds(alloc: Global, a: &Admitted, stop: u64, fill: u8, wanted: u32) -> Result<bool, Fail> {
    if stop == 0 {
        return Err("calls are counted from 1".into());
    }
    let disk = StopDisk::new(alloc, SIZE, stop, fill)?;
    let (first, disk) = found(alloc, a, played(alloc, a, disk));
    let (second, _) = found(alloc, a, played(alloc, a, disk));
    Ok(first == Some(wanted) && second == Some(2))
}

/// Whether it does so with each of the bytes.
fn row_holds(alloc: Global, a: &Admitted, row: &Row) -> Result<bool, Fail> {
    let [zero, one, ones] = row.found;
    Ok(
        finds(alloc, a, row.stop, 0, zero)?
            && finds(alloc, a, row.stop, 1, one)?
            && finds(alloc, a, row.stop, 255, ones)?,
    )
}

/// Whether it does so for all rows.
fn rows_hold(alloc: Global) -> Result<bool, Fail> {
    let protocols = alone(alloc, admitted(alloc, TALK)?)?;
    for row in ROWS {
        if !row_holds(alloc, protocols.at(0), row)? {
            return Ok(false);
        }
    }
    Ok(true)
}

#[test]
fn a_stop_leaves_what_was_acknowledged(rt: HostRuntime) -> Result<(), Fail> {
    assert!(rt; rows_hold(rt.alloc())?);
    Ok(())
}
