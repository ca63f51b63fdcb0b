ghost use Rattle.std.specs.Prelude.{ℕ, List, ◌≤◌, length, IfOk};
ghost use Rattle.bspl_types.specs.Limits.{input_limit};
ghost use Rattle.dimacs.specs.Dimacs.{clause_limit};
ghost use Rattle.dimacs.specs.Verdict.{IsFormulaOf};
ghost use Rattle.formula_check.specs.Answer.{IsLogAnswer};

use clause_core::Formula;
use dimacs::formulas_are_as_written;
use list_base::{Bytes, NoMemory};
use log_checker::{Reject, check_log};
use program_frame::Reply;
use refutation_log::Log;
use rejections::reject_line;
use std::alloc::Global;
use tool_input::Status;

/// Whether the log is accepted, and if not, its first failure.
pub fn log_answer(alloc: Global, formula: &Formula, log: &Log) -> Result<Reply<Status>, NoMemory>
    requires few { length formula.now.clauses ≤ clause_limit }
    requires short { length log.now.steps ≤ input_limit }
    ensures { (text : List ℕ) → IsFormulaOf text formula.now →
        IfOk result (λ reply. IsLogAnswer text log.now reply.text reply.status) }
{
    // law: what satisfies the formula of a text satisfies the clauses that are written
    formulas_are_as_written();
    match check_log(alloc, formula, log) {
        Ok(()) => Ok(Reply {
            status: Status::Done,
            text: Bytes::from_slice(alloc, b"accepted unsatisfiable\n")?,
        }),
        Err(Reject::NoMemory) => Err(NoMemory),
        Err(reject) => Ok(Reply {
            status: Status::Refuted,
            text: reject_line(alloc, reject)?,
        }),
    }
}
