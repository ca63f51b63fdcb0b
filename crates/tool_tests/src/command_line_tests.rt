use super::args::args_of;
use bspl_types::NoMemory;
use command_line::Command::{
    Audit, Check, CheckDead, Dead, Expand, Generate, Replay, Restart, Run, Serve, Verify,
};
use command_line::Subject::{Protocol, Size};
use command_line::{Command, CommandLine, Subject, command_line};
use std::alloc::Global;
use std::test::Fail;

const P: Subject<'static> = Protocol(b"P");

const LONG: Subject<'static> = Protocol(b"P#12.Q#3.R_");

/// A command line, and arguments that ask for it, with one blank between two of them.
#[derive(Clone, Copy)]
struct Row {
    command: Command,
    subject: Subject<'static>,
    brief: bool,
    conflicts: u32,
    threads: u32,
    given: &'static [&'static str],
}

/// No option.
const PLAIN: Row = Row {
    command: Verify,
    subject: P,
    brief: false,
    conflicts: 10_000,
    threads: 1,
    given: &["verify P", "-- verify P", "verify -- P", "verify P --"],
};

const ROWS: &[Row] = &[
    PLAIN,
    Row {
        command: Check,
        given: &["check P"],
        ..PLAIN
    },
    Row {
        command: Replay,
        given: &["replay P"],
        ..PLAIN
    },
    Row {
        command: Expand,
        given: &["expand P"],
        ..PLAIN
    },
    Row {
        command: Run,
        given: &["run P", "-- run P"],
        ..PLAIN
    },
    Row {
        command: Restart,
        brief: true,
        conflicts: 9,
        given: &["restart P --brief --conflicts 9"],
        ..PLAIN
    },
    Row {
        command: Dead,
        brief: true,
        conflicts: 7,
        given: &["dead P --brief --conflicts 7"],
        ..PLAIN
    },
    Row {
        command: CheckDead,
        given: &["check-dead P"],
        ..PLAIN
    },
    Row {
        command: Serve,
        given: &["serve P", "serve -- P"],
        ..PLAIN
    },
    Row {
        command: Audit,
        given: &["audit P", "-- audit P"],
        ..PLAIN
    },
    Row {
        command: Generate,
        subject: Size(7),
        given: &["generate 7"],
        ..PLAIN
    },
    Row {
        command: Generate,
        subject: Size(1),
        given: &["generate 1"],
        ..PLAIN
    },
    Row {
        command: Generate,
        subject: Size(16),
        given: &["generate 16", "generate -- 16"],
        ..PLAIN
    },
    Row {
        subject: Protocol(b"Role"),
        given: &["verify Role"],
        ..PLAIN
    },
    Row {
        subject: Protocol(b"_"),
        given: &["verify _"],
        ..PLAIN
    },
    Row {
        subject: Protocol(b"a-1"),
        given: &["verify a-1"],
        ..PLAIN
    },
    Row {
        subject: Protocol(b"P#1.Q"),
        given: &["verify P#1.Q"],
        ..PLAIN
    },
    Row {
        command: Check,
        subject: LONG,
        given: &["check P#12.Q#3.R_"],
        ..PLAIN
    },
    Row {
        subject: Protocol(b"verify"),
        given: &["verify verify"],
        ..PLAIN
    },
    Row {
        brief: true,
        given: &[
            "--brief verify P",
            "verify --brief P",
            "verify P --brief",
            "verify P --brief --",
            "--brief -- verify P",
        ],
        ..PLAIN
    },
    Row {
        command: Run,
        brief: true,
        given: &["run --brief P", "run P --brief"],
        ..PLAIN
    },
    Row {
        conflicts: 1,
        given: &["verify P --conflicts 1", "verify P --conflicts=1"],
        ..PLAIN
    },
    Row {
        conflicts: 20_000,
        given: &["verify --conflicts 20000 P", "--conflicts=20000 verify P"],
        ..PLAIN
    },
    Row {
        conflicts: 9_999,
        given: &["--conflicts 9999 -- verify P"],
        ..PLAIN
    },
    Row {
        command: Run,
        conflicts: 42,
        given: &["run P --conflicts=42", "run --conflicts 42 P"],
        ..PLAIN
    },
    Row {
        command: Generate,
        subject: Size(3),
        conflicts: 42,
        given: &["generate 3 --conflicts 42", "generate --conflicts=42 3"],
        ..PLAIN
    },
    Row {
        command: Run,
        threads: 0,
        given: &["run P --threads 0", "run P --threads=0"],
        ..PLAIN
    },
    Row {
        command: Run,
        threads: 8,
        given: &["run --threads 8 P", "--threads=8 run P"],
        ..PLAIN
    },
    Row {
        command: Generate,
        subject: Size(3),
        threads: 2,
        given: &["generate 3 --threads 2", "--threads=2 generate -- 3"],
        ..PLAIN
    },
    Row {
        command: Run,
        brief: true,
        conflicts: 5,
        threads: 3,
        given: &[
            "run P --brief --conflicts 5 --threads 3",
            "--threads=3 run --conflicts=5 P --brief",
            "--brief --threads 3 --conflicts=5 -- run P",
        ],
        ..PLAIN
    },
];

/// Whether the command line is that of the row.
fn is_row(line: &CommandLine<'_>, row: &Row) -> bool {
    line.command == row.command
        && line.subject == row.subject
        && line.brief == row.brief
        && line.conflicts.conflicts() == row.conflicts
        && line.threads.threads() == row.threads
}

/// Whether the arguments are the command line of the row.
fn is_given(alloc: Global, given: &str, row: &Row) -> Result<bool, NoMemory> {
    let args = args_of(alloc, given)?;
    match command_line(alloc, args.as_slice()) {
        Ok(Some(line)) => Ok(is_row(&line, row)),
        Ok(None) => Ok(false),
        Err(error) => Err(error),
    }
}

#[test]
fn reads_command_lines(rt: HostRuntime) -> Result<(), Fail> {
    for row in ROWS {
        for given in row.given {
            assert!(rt; is_given(rt.alloc(), given, row)?);
        }
    }
    Ok(())
}
