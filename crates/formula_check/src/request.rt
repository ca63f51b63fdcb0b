ghost use Rattle.bspl_types.specs.Limits.{input_limit};
ghost use Rattle.formula_check.specs.Request.{HasNoArgument};
ghost use Rattle.formula_check.specs.Output.{CheckOutput};
ghost use Rattle.formula_check.specs.inner.Request.{IsRequest};

use super::reply::{check_reply, too_long, usage};
use list_base::{Bytes, NoMemory};
use program_frame::{Program, Reply};
use std::alloc::Global;
use tool_input::{INPUT_LIMIT, Status};

/// What the arguments request: a log checked, if there are none.
#[derive(Clone, Copy, Debug)]
pub struct Request {
    is_valid: bool,
}

impl<'a> Program<'a> for Request {
    type Status = Status;

    ghost requests = { λ args request. IsRequest args request.is_valid };

    ghost asks = { HasNoArgument };

    ghost answers = { CheckOutput };

    ghost limit = { input_limit };

    fn request(alloc: Global, args: &'a [String]) -> Result<Request, NoMemory> {
        Ok(Request {
            is_valid: args.is_empty(),
        })
    }

    fn input_limit(&self) -> u64 {
        INPUT_LIMIT
    }

    fn asks_input(&self) -> bool {
        self.is_valid
    }

    fn reply_to(&self, alloc: Global, input: Bytes) -> Result<Reply<Status>, NoMemory> {
        if self.is_valid {
            check_reply(alloc, input.as_slice())
        } else {
            usage(alloc)
        }
    }

    fn too_long(&self, alloc: Global) -> Result<Reply<Status>, NoMemory> {
        too_long(alloc)
    }
}
