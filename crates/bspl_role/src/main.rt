//! The program that plays a role line by line.
#![tactic(auto)]

use bspl_io::{StdSink, StdSource};
use live_role::bspl_role;
use program_frame::args_given;
use std::io;
use std::process::ExitCode;

/// The exit status where memory ran out before there were arguments.
const NO_MEMORY: u8 = 7;

fn main(rt: HostRuntime) -> ExitCode {
    let Ok(args) = args_given(&rt) else {
        return ExitCode::from(NO_MEMORY);
    };
    let mut input = StdSource::new(rt.reader());
    let mut output = StdSink::new(io::writer(&rt));
    let end = bspl_role(rt.alloc(), args.as_slice(), &rt, &mut input, &mut output);
    ExitCode::from(end.ending.number())
}
