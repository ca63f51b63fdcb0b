//! The program of more commands on a protocol: `can`, `formula`, `lrat`, `page` and `explain`.
#![tactic(auto)]

use more_commands::MoreQuestion;
use program_frame::{answer, args_given};
use std::io;
use std::process::ExitCode;
use tool_input::Request;

fn main(rt: HostRuntime) -> ExitCode {
    let args = args_given(&rt);
    let (ending, _, _) = answer::<Request<'_, MoreQuestion<'_>>, _, _>(
        rt.alloc(),
        &args,
        rt.reader(),
        io::writer(&rt),
    );
    ExitCode::from(ending.number())
}
