//! The program that judges and plays protocols.
#![tactic(auto)]

use bspl_tool::answer;
use program_frame::args_given;
use std::io;
use std::process::ExitCode;

fn main(rt: HostRuntime) -> ExitCode {
    let args = args_given(&rt);
    let (ending, _, _) = answer(&rt, rt.alloc(), &args, rt.reader(), io::writer(&rt));
    ExitCode::from(ending.number())
}
