ghost use Rattle.std.specs.Prelude.{◌≡◌};
ghost use Rattle.tool_input.specs.declared.rejection.Code.TheVariants.{E};
ghost use Rattle.tool_input.specs.declared.rejection.Field.TheVariants as field;
ghost use Rattle.tool_input.specs.Rejection.{bare, input_rejection, text_rejection, with_one, with_two};

use super::parts::Part;
use super::refusal::InputRefusal;
use bspl_types::{Name, Refusal, What};

/// The code of a rejection: a letter and a number.
#[derive(Clone, Copy, Debug, PartialEq, Eq)]
pub enum Code {
    /// The input as a whole.
    P(u8),
    /// The protocol text.
    E(u8),
    /// The text of a log.
    L(u8),
    /// The text of a run.
    W(u8),
    /// The text of agents.
    S(u8),
    /// The text of histories.
    H(u8),
    /// The first line for a role.
    F(u8),
    /// A question.
    Q(u8),
}

/// What a rejection names.
#[derive(Drop)]
pub enum Field {
    /// An offset, a count, a limit or a line.
    Number(u64),
    /// The name of a protocol, a role, a message or a parameter.
    Name(Name),
    /// What is counted against a limit.
    Counted(What),
    /// The part that is missing.
    Part(Part),
}

/// Why the arguments or the input are refused, as it is written: a code and its fields.
#[derive(Drop)]
pub struct Rejection {
    pub code: Code,
    pub first: Option<Field>,
    pub second: Option<Field>,
}

impl Rejection {
    /// A code alone.
    pub fn bare(code: Code) -> Rejection
        ensures { result ≡ bare code }
    {
        Rejection {
            code,
            first: None,
            second: None,
        }
    }

    /// A code with one field.
    pub fn with_one(code: Code, field: Field) -> Rejection
        ensures { result ≡ with_one code field }
    {
        Rejection {
            code,
            first: Some(field),
            second: None,
        }
    }

    /// A code with two fields.
    pub fn with_two(code: Code, one: Field, other: Field) -> Rejection
        ensures { result ≡ with_two code one other }
    {
        Rejection {
            code,
            first: Some(one),
            second: Some(other),
        }
    }

    /// The rejection with a code of the protocol text's, and a number.
    fn at(code: u8, number: u64) -> Rejection
        ensures { result ≡ with_one (E code) (field.Number number) }
    {
        Rejection::with_one(Code::E(code), Field::Number(number))
    }

    /// The rejection with a code of the protocol text's, and a name.
    fn of(code: u8, name: Name) -> Rejection
        ensures { result ≡ with_one (E code) (field.Name name) }
    {
        Rejection::with_one(Code::E(code), Field::Name(name))
    }
}

/// The rejection of an input.
pub fn input_rejection(refusal: InputRefusal) -> Rejection
    ensures { result ≡ input_rejection refusal }
{
    match refusal {
        InputRefusal::NoPart { part } => Rejection::with_one(Code::P(1), Field::Part(part)),
        InputRefusal::TooLong { limit } => Rejection::with_one(Code::P(2), Field::Number(limit)),
    }
}

/// The rejection of a protocol text, unless memory ran out.
pub fn text_rejection(refusal: Refusal) -> Option<Rejection>
    ensures { result ≡ text_rejection refusal }
{
    let rejection = match refusal {
        Refusal::Byte { offset } => Rejection::at(1, offset),
        Refusal::Syntax { offset } => Rejection::at(2, offset),
        Refusal::NoProtocol { name } => Rejection::of(3, name),
        Refusal::Duplicate { offset } => Rejection::at(4, offset),
        Refusal::Unknown { offset } => Rejection::at(5, offset),
        Refusal::Arity { offset } => Rejection::at(6, offset),
        Refusal::BadAdornment { offset } => Rejection::at(7, offset),
        Refusal::Recursion { name } => Rejection::of(8, name),
        Refusal::Limit { what, count } => {
            Rejection::with_two(Code::E(9), Field::Counted(what), Field::Number(count))
        }
        Refusal::NoKey => Rejection::bare(Code::E(10)),
        Refusal::NotWholeKey { message, param } => {
            Rejection::with_two(Code::E(11), Field::Name(message), Field::Name(param))
        }
        Refusal::ForeignKey { offset } => Rejection::at(12, offset),
        Refusal::SelfMessage { message } => Rejection::of(13, message),
        Refusal::RepeatedParam { message, param } => {
            Rejection::with_two(Code::E(14), Field::Name(message), Field::Name(param))
        }
        Refusal::NoMemory => return None,
    };
    Some(rejection)
}
