ghost use Rattle.std.specs.Prelude.{◌+◌, ◌<◌, ◌^◌, ◌↔◌, length, IfOk, IsTrue};
ghost use Rattle.clause_core.specs.Clause.{IsUnsatisfiable};
ghost use Rattle.library_uses.specs.Uses.{RefutesByText};

use clause_core::Formula;
use list_base::NoMemory;
use log_checker::{Reject, check_log};
use refutation_log::{LogRefusal, read_log, steps_are_fewer_than_bytes};
use std::alloc::Global;

/// Whether the text is that of a log that refutes the formula, whoever wrote it.
pub fn is_refuted(alloc: Global, f: &Formula, text: &[u8]) -> Result<bool, NoMemory>
    requires { length f.now.clauses + length text.now < 2 ^ 32 }
    ensures exact { IfOk result (λ yes. IsTrue yes ↔ RefutesByText f.now text.now) }
    ensures sound { IfOk result (λ yes. IsTrue yes → IsUnsatisfiable f.now.clauses) }
{
    // law: a log has no more steps than its text has bytes
    steps_are_fewer_than_bytes();
    let log = match read_log(alloc, text) {
        Ok((_, log)) => log,
        Err(refusal) if refusal == LogRefusal::NoMemory => return Err(NoMemory),
        Err(_) => return Ok(false),
    };
    match check_log(alloc, f, &log) {
        Ok(()) => Ok(true),
        Err(error) if error == Reject::NoMemory => Err(NoMemory),
        Err(_) => Ok(false),
    }
}
