ghost use Rattle.std.specs.Prelude.{◌≡◌, ◌++◌, ◌∷◌, [], IfOk, IsUtf8};
ghost use Rattle.std.specs.Prelude.{◌≤◌, Some, length};
ghost use Rattle.serde_json.specs.Read.{read};
ghost use Rattle.serde_json.specs.View.{view};
ghost use Rattle.wire_form.specs.Meaning.{IsLineReading};
ghost use Rattle.wire_form.specs.Request.{IsNumbered, line_limit, request_data};
ghost use Rattle.wire_form.specs.inner.Asked.{request_of};

use super::act::Reading;
use super::any_order::{asked_of, found_in};
use super::asked::Asked;
use super::in_order::asked_in_order;
use super::meaning::act_of;
use bspl_types::Admitted;
use json::Scratch;
use list_base::NoMemory;
use serde_json::Value;
use std::alloc::Global;

/// The most bytes of a line before its LF.
const LINE_LIMIT: usize = 65_536;

/// Reads lines, over memory that it keeps from one to the next.
#[derive(Drop)]
pub struct LineReader {
    alloc: Global,
    scratch: Scratch,
}

impl LineReader {
    /// A reader, which takes no memory yet.
    pub fn new(alloc: Global) -> LineReader {
        LineReader {
            alloc,
            scratch: Scratch::new(alloc),
        }
    }

    /// What the line with this body, and an LF after it, asks of the role. Only where its members
    /// stand in another order than that of their names is a tree made of them.
    pub fn read(&mut self, a: &Admitted, role: u32, body: &[u8]) -> Result<Reading, NoMemory>
        ensures { IfOk result (IsLineReading a.now role (body.now ++ 10 ∷ [])) }
    {
        if body.len() > LINE_LIMIT {
            return Ok(Reading::NotRead);
        }
        match asked_in_order(self.alloc, &mut self.scratch, body) {
            Some(asked) => Ok(reading_of(a, role, body, &asked)),
            None => read_in_any_order(self.alloc, a, role, body),
        }
    }
}

/// What the line asks, whatever order its members have.
fn read_in_any_order(
    alloc: Global,
    a: &Admitted,
    role: u32,
    body: &[u8],
) -> Result<Reading, NoMemory>
    requires short { length body.now ≤ line_limit }
    ensures { IfOk result (IsLineReading a.now role (body.now ++ 10 ∷ [])) }
{
    match Value::from_slice(alloc, body) {
        Ok(value) => read_value(alloc, a, role, body, &value),
        Err(error) if error.is_memory() => Err(NoMemory),
        Err(_) => Ok(Reading::NotRead),
    }
}

/// What the line asks whose body is read as the value.
fn read_value(
    alloc: Global,
    a: &Admitted,
    role: u32,
    body: &[u8],
    value: &Value,
) -> Result<Reading, NoMemory>
    requires short { length body.now ≤ line_limit }
    requires utf8 { IsUtf8 body.now }
    requires reads { read body.now ≡ Some (view value.now) }
    ensures { IfOk result (IsLineReading a.now role (body.now ++ 10 ∷ [])) }
{
    let Some(found) = found_in(value) else {
        return Ok(Reading::NotRead);
    };
    let asked = asked_of(alloc, &found)?;
    Ok(reading_of(a, role, body, &asked))
}

/// What the line asks whose body is this request.
fn reading_of(a: &Admitted, role: u32, body: &[u8], asked: &Asked<'_>) -> Reading
    requires short { length body.now ≤ line_limit }
    requires utf8 { IsUtf8 body.now }
    requires reads { read body.now ≡ Some (request_data (request_of asked.now)) }
    requires numbered { IsNumbered (request_of asked.now) }
    ensures { IsLineReading a.now role (body.now ++ 10 ∷ []) result }
{
    match act_of(a, role, asked) {
        None => Reading::NotMeant,
        Some(act) => Reading::Meant(act),
    }
}
