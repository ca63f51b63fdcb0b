//! The program that checks a log on a formula in DIMACS form.
#![tactic(auto)]

use formula_check::Request;
use program_frame::{answer, args_given};
use std::io;
use std::process::ExitCode;

fn main(rt: HostRuntime) -> ExitCode {
    let args = args_given(&rt);
    let (ending, _, _) = answer::<Request, _, _>(rt.alloc(), &args, rt.reader(), io::writer(&rt));
    ExitCode::from(ending.number())
}
