use super::args::args_of;
use super::journal_place::Place;
use super::role_rows::{sink, source};
use list_base::{Bytes, NoMemory};
use live_role::{RoleEnding, RoleJournal, bspl_role};
use program_frame::Ending;
use std::alloc::Global;
use std::test::Fail;
use tool_input::Status;

/// A call of role A of Ping with a journal, and what the journal keeps after it.
#[derive(Clone, Copy)]
struct Row {
    args: &'static str,
    place: Place,
    /// The lines for the role.
    lines: &'static [u8],
    ending: RoleEnding,
    output: &'static [u8],
    kept: Option<&'static [u8]>,
}

/// A role that is served to the end of its input.
const SERVED: Row = Row {
    args: "Ping A --journal kept",
    place: Place::NEW,
    lines: b"",
    ending: RoleEnding::Ended(Ending::Answered(Status::Done)),
    output: b"",
    kept: Some(b""),
};

/// A role whose journal is refused.
const REFUSED: Row = Row {
    ending: RoleEnding::Ended(Ending::Answered(Status::Refused)),
    kept: None,
    ..SERVED
};

const FIRST: &[u8] = br#"{"emit":{"key":["1"],"message":"ping","outs":[]}}
"#;

const ROWS: &[Row] = &[
    // Of an emission, the same again, no request, and another emission two lines are kept.
    Row {
        args: "Ping A --unchecked --journal kept --no-sync",
        lines: br#"{"emit":{"key":["1"],"message":"ping","outs":[]}}
{"emit":{"key":["1"],"message":"ping","outs":[]}}
{"emit":{}}
{"emit":{"key":["2"],"message":"ping","outs":[]}}
"#,
        output: br#"{"sent":{"message":"ping","number":0,"stamp":1,"values":{"ID":"1"}}}
{"blocked":"bound","kept":"1","param":"ID"}
{"refused":"F1"}
{"sent":{"message":"ping","number":1,"stamp":2,"values":{"ID":"2"}}}
"#,
        kept: Some(
            br#"{"emit":{"key":["1"],"message":"ping","outs":[]}}
{"emit":{"key":["2"],"message":"ping","outs":[]}}
"#,
        ),
        ..SERVED
    },
    // Started again, the role has its event, and its clock goes on.
    Row {
        place: Place {
            lines: FIRST,
            ..Place::NEW
        },
        lines: br#"{"emit":{"key":["1"],"message":"ping","outs":[]}}
{"emit":{"key":["2"],"message":"ping","outs":[]}}
"#,
        output: br#"{"blocked":"bound","kept":"1","param":"ID"}
{"sent":{"message":"ping","number":1,"stamp":2,"values":{"ID":"2"}}}
"#,
        kept: Some(
            br#"{"emit":{"key":["1"],"message":"ping","outs":[]}}
{"emit":{"key":["2"],"message":"ping","outs":[]}}
"#,
        ),
        ..SERVED
    },
    // If keeping fails, the line has no reply.
    Row {
        place: Place {
            lines: FIRST,
            calls: 0,
            ..Place::NEW
        },
        lines: br#"{"emit":{"key":["2"],"message":"ping","outs":[]}}
"#,
        ending: RoleEnding::NotKept,
        kept: Some(FIRST),
        ..SERVED
    },
    // The head has seven lines; the second line behind it makes no event.
    Row {
        place: Place {
            lines: br#"{"emit":{"key":["1"],"message":"ping","outs":[]}}
{"emit":{"key":["1"],"message":"ping","outs":[]}}
"#,
            ..Place::NEW
        },
        output: b"refused J1 9\n",
        ..REFUSED
    },
    // A journal of another role is left alone.
    Row {
        place: Place {
            head: b"role A\n",
            ..Place::NEW
        },
        output: b"refused J2\n",
        ..REFUSED
    },
    // The role comes before its journal.
    Row {
        args: "Ping C --journal kept",
        place: Place {
            head: b"role A\n",
            ..Place::NEW
        },
        output: b"refused F5\n",
        ..REFUSED
    },
];

/// The protocol, in another layout than that of the head, and the lines.
fn input_of(alloc: Global, lines: &[u8]) -> Result<Bytes, NoMemory> {
    let opening = b"Ping { roles A, B parameters out ID key A -> B: ping[out ID] }\n%% wire\n";
    let mut input = Bytes::from_slice(alloc, opening)?;
    input.append(lines)?;
    Ok(input)
}

/// Whether the call ends, writes and keeps as the row says, read in pieces of this size.
fn is_kept(alloc: Global, row: &Row, piece: usize) -> Result<bool, NoMemory> {
    let args = args_of(alloc, row.args)?;
    let mut source = source(alloc, input_of(alloc, row.lines)?.as_slice(), piece, 0)?;
    let mut sink = sink(alloc, 4096, 0)?;
    let end = bspl_role(alloc, args.as_slice(), &row.place, &mut source, &mut sink);
    let is_answered = end.ending == row.ending && sink.written() == row.output;
    match (&end.journal, row.kept) {
        (RoleJournal::Unkept, None) => Ok(is_answered),
        (RoleJournal::Kept(journal), Some(kept)) => {
            let image = journal.crash_image(alloc, &[], 0)?;
            Ok(is_answered && image.as_slice() == kept)
        }
        _ => Ok(false),
    }
}

#[test]
fn events_are_kept_and_restored(rt: HostRuntime) -> Result<(), Fail> {
    for row in ROWS {
        for piece in [1, 4096] {
            assert!(rt; is_kept(rt.alloc(), row, piece)?, "{}", row.args);
        }
    }
    Ok(())
}
