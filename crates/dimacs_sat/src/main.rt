//! The program that decides a formula in DIMACS form.
#![tactic(auto)]

use dimacs::Request;
use program_frame::{answer, args_given};
use std::io;
use std::process::ExitCode;

fn main(rt: HostRuntime) -> ExitCode {
    let args = args_given(&rt);
    let (ending, _, _) = answer::<Request, _, _>(rt.alloc(), &args, rt.reader(), io::writer(&rt));
    ExitCode::from(ending.number())
}
