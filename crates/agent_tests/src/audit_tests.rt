ghost use Rattle.history_audit.specs.Histories.{AreHistories};

use super::fixtures::{admitted, alone};
use bspl_types::{Admitted, NoMemory};
use enactment_model::Why;
use history_audit::{AuditNo, Histories, HistoryRefusal, audit, read_histories};
use run_text::write_run;
use std::alloc::Global;
use std::test::Fail;

/// A sends a number, B another, and C may pass on each of the two: the protocol is not safe.
const CLASH: &[u8] = b"P {
  roles A, B, C
  parameters out ID key, out x, out y
  A -> C: a[out ID, out x]
  B -> C: b[out ID, out x]
  C -> A: c[in ID, in x, out y]
}";

/// After a start each role waits for the next one, if their receipts come first.
const CIRCLE: &[u8] = b"P {
  roles A, B, C
  parameters out ID key, out x, out y, out z
  B -> A: start[out ID]
  B -> C: begin[in ID]
  A -> B: f[in ID, out x]
  B -> C: g[in ID, out y]
  C -> A: h[in ID, out z]
}";

/// What is wanted of the histories of a text.
#[derive(Clone, Copy)]
enum Wanted {
    Refused(u64),
    Run(&'static [u8]),
    Bad(u32, usize),
    Unsent(u32, usize),
    Cycle(&'static [(u32, usize)]),
}

struct Row {
    protocol: &'static [u8],
    histories: &'static [u8],
    wanted: Wanted,
}

const ROWS: &[Row] = &[
    // C knows two values of x, and receives one of them twice.
    Row {
        protocol: CLASH,
        histories: b"histories 1
role C
receive a ID=1 x=5
receive b ID=1 x=7
receive a ID=1 x=5
send c ID=1 x=7 y=1
role B
send b ID=1 x=7
role A
send a ID=1 x=5
end
",
        wanted: Wanted::Run(
            b"run 1
send a ID=1 x=5
send b ID=1 x=7
receive a ID=1 x=5
receive b ID=1 x=7
receive a ID=1 x=5
send c ID=1 x=7 y=1
end
",
        ),
    },
    Row {
        protocol: CLASH,
        histories: b"histories 1\nend\n",
        wanted: Wanted::Run(b"run 1\nend\n"),
    },
    // The first bad role counts, whatever its place.
    Row {
        protocol: CLASH,
        histories: b"histories 1
role C
receive a ID=1 x=5
role B
send b ID=1 x=7
send b ID=1 x=7
end
",
        wanted: Wanted::Bad(1, 2),
    },
    Row {
        protocol: CLASH,
        histories: b"histories 1\nrole C\nsend c ID=1 x=7 y=1\nreceive b ID=1 x=7\nend\n",
        wanted: Wanted::Bad(2, 1),
    },
    Row {
        protocol: CLASH,
        histories: b"histories 1\nrole C\nreceive a ID=1 x=5\nrole A\nsend a ID=1 x=6\nend\n",
        wanted: Wanted::Unsent(2, 1),
    },
    Row {
        protocol: CIRCLE,
        histories: b"histories 1
role C
receive begin ID=1
receive g ID=1 y=2
send h ID=1 z=3
role B
send start ID=1
send begin ID=1
receive f ID=1 x=1
send g ID=1 y=2
role A
receive start ID=1
receive h ID=1 z=3
send f ID=1 x=1
end
",
        wanted: Wanted::Cycle(&[(0, 2), (2, 2), (1, 3)]),
    },
    Row {
        protocol: CLASH,
        histories: b"histories 1\nrole A\nrole B\nrole A\nend\n",
        wanted: Wanted::Refused(4),
    },
    Row {
        protocol: CLASH,
        histories: b"histories 1\nrole A\nsend b ID=1 x=7\nend\n",
        wanted: Wanted::Refused(3),
    },
    Row {
        protocol: CLASH,
        histories: b"histories 1\nrole A\nsend a ID=1 x=7\n",
        wanted: Wanted::Refused(4),
    },
    Row {
        protocol: CLASH,
        histories: b"histories 1\nsend a ID=1 x=7\nend\n",
        wanted: Wanted::Refused(2),
    },
    Row {
        protocol: CLASH,
        histories: b"histories 1\nend\n\n",
        wanted: Wanted::Refused(3),
    },
];

/// Whether the answer is the one that is wanted.
fn is_no(no: &AuditNo, wanted: Wanted) -> bool {
    match (no, wanted) {
        (AuditNo::Bad { role, place, why }, Wanted::Unsent(bad, at)) => {
            *role == bad && *place == at && matches!(why, Why::Unsent)
        }
        (AuditNo::Bad { role, place, why }, Wanted::Bad(bad, at)) => {
            *role == bad && *place == at && !matches!(why, Why::Unsent)
        }
        (AuditNo::Cycle(points), Wanted::Cycle(circle)) => {
            points.len() == circle.len()
                && points.as_slice().iter().zip(circle).all(|(point, wanted)| point.role == wanted.0
                    && point.place == wanted.1)
        }
        (_, _) => false,
    }
}

/// Whether the histories are answered as is wanted.
fn is_audited(
    alloc: Global,
    protocol: &Admitted,
    histories: &Histories,
    wanted: Wanted,
) -> Result<bool, NoMemory>
    requires { AreHistories protocol.now histories.now }
{
    match audit(alloc, protocol, histories) {
        Ok(run) => match wanted {
            Wanted::Run(text) => {
                Ok(write_run(alloc, protocol, run.as_slice())?.as_slice() == text)
            }
            _ => Ok(false),
        },
        Err(AuditNo::NoMemory) => Err(NoMemory),
        Err(no) => Ok(is_no(&no, wanted)),
    }
}

/// Whether the text is answered as is wanted.
fn is_answered(alloc: Global, protocol: &Admitted, row: &Row) -> Result<bool, NoMemory> {
    match read_histories(alloc, protocol, row.histories) {
        Ok(histories) => is_audited(alloc, protocol, &histories, row.wanted),
        Err(HistoryRefusal::NoMemory) => Err(NoMemory),
        Err(HistoryRefusal::Form { line }) => match row.wanted {
            Wanted::Refused(number) => Ok(line == number),
            _ => Ok(false),
        },
    }
}

#[test]
fn histories_are_explained_or_refuted(rt: HostRuntime) -> Result<(), Fail> {
    for row in ROWS {
        let protocols = alone(rt.alloc(), admitted(rt.alloc(), row.protocol)?)?;
        assert!(rt; is_answered(rt.alloc(), protocols.at(0), row)?);
    }
    Ok(())
}
