ghost use Rattle.dimacs.specs.Output.{DimacsOutput, dimacs_input_limit};
ghost use Rattle.dimacs.specs.Call.{AsksForInput};
ghost use Rattle.dimacs.specs.inner.Request.{IsRequest};

use super::arguments::{Options, options_of};
use super::reply::{decided, too_long, usage};
use super::status::Status;
use list_base::{Bytes, NoMemory};
use program_frame::{Program, Reply};
use std::alloc::Global;

/// What the arguments request: a formula decided with their options. Invalid ones give none.
#[derive(Clone, Copy, Debug)]
pub struct Request {
    options: Option<Options>,
}

impl<'a> Program<'a> for Request {
    type Status = Status;

    ghost requests = { λ args request. IsRequest args request.options };

    ghost asks = { AsksForInput };

    ghost answers = { DimacsOutput };

    ghost limit = { dimacs_input_limit };

    fn request(alloc: Global, args: &'a [String]) -> Result<Request, NoMemory> {
        Ok(Request {
            options: options_of(args),
        })
    }

    fn input_limit(&self) -> u64 {
        536_870_912
    }

    fn asks_input(&self) -> bool {
        self.options.is_some()
    }

    fn reply_to(&self, alloc: Global, input: Bytes) -> Result<Reply<Status>, NoMemory> {
        match self.options {
            Some(options) => decided(alloc, options, input),
            None => usage(alloc),
        }
    }

    fn too_long(&self, alloc: Global) -> Result<Reply<Status>, NoMemory> {
        too_long(alloc)
    }
}
