ghost use Rattle.std.specs.Prelude.{◌≡◌, ◌-◌, slice_get};
ghost use Rattle.tool_input.specs.declared.rejection.Code.TheVariants.{E, Q};
ghost use Rattle.answer_words.specs.Fault.{fault_of};

use tool_input::Code;

/// What is refused.
#[derive(Clone, Copy)]
pub enum Fault {
    /// The part that the command needs is missing.
    NoPart,
    /// The input has too many bytes.
    TooLong,
    /// No token begins with a byte.
    BadByte,
    /// No document has a token there, or the text ends too early.
    BadToken,
    /// No protocol has the name that is asked for.
    NoProtocol,
    /// A name is declared twice.
    NameTwice,
    /// A name is not declared.
    UnknownName,
    /// A reference gives another number of roles or parameters than its protocol has.
    OtherArity,
    /// An adornment is not supported, or not the one that is declared.
    BadAdornment,
    /// References form a cycle.
    Cycle,
    /// A count is over its limit.
    OverLimit,
    /// There is no key.
    NoKey,
    /// A message lacks a key.
    KeyMissing,
    /// The word `key` is on a name that is not declared as a key.
    KeyElsewhere,
    /// A message goes to its sender.
    ToItself,
    /// A message has a parameter twice.
    ParameterTwice,
    /// No message has the name that is asked for.
    NoMessage,
    /// A line is none of a log.
    LogForm,
    /// A number of a log is out of range.
    LogNumber,
    /// A line is none of a run.
    RunForm,
    /// A line is none of a script.
    ScriptForm,
    /// A line of a script names what is not there.
    ScriptName,
    /// A line is none of a text of histories.
    HistoryForm,
    /// A part does not begin with the line of a role.
    NoRole,
    /// No role has the name that is asked for.
    NoRoleNamed,
    /// No parameter has the name that is asked for.
    NoParameter,
    /// No word of a question begins with a byte.
    QuestionByte,
    /// A question has too many tokens.
    QuestionLong,
    /// No question has a token there, or it ends too early.
    QuestionToken,
}

/// What the code stands for.
pub(crate) fn fault_of(code: Code) -> Option<Fault>
    ensures { result ≡ fault_of code }
{
    match code {
        Code::P(n) => nth(&[Fault::NoPart, Fault::TooLong], n),
        Code::E(n) => text_fault(n),
        Code::L(n) => nth(&[Fault::LogForm, Fault::LogNumber], n),
        Code::W(n) => nth(&[Fault::RunForm], n),
        Code::S(n) => nth(&[Fault::ScriptForm, Fault::ScriptName], n),
        Code::H(n) => nth(&[Fault::HistoryForm], n),
        Code::F(n) => { if n == 5 { Some(Fault::NoRole) } else { None } }
        Code::Q(n) => question_fault(n),
    }
}

/// What a code of the protocol text stands for.
fn text_fault(n: u8) -> Option<Fault>
    ensures { result ≡ fault_of (E n) }
{
    let faults = [
        Fault::BadByte,
        Fault::BadToken,
        Fault::NoProtocol,
        Fault::NameTwice,
        Fault::UnknownName,
        Fault::OtherArity,
        Fault::BadAdornment,
        Fault::Cycle,
        Fault::OverLimit,
        Fault::NoKey,
        Fault::KeyMissing,
        Fault::KeyElsewhere,
        Fault::ToItself,
        Fault::ParameterTwice,
        Fault::NoMessage,
        Fault::NoRoleNamed,
        Fault::NoParameter,
    ];
    nth(&faults, n)
}

/// What a code of a question stands for.
fn question_fault(n: u8) -> Option<Fault>
    ensures { result ≡ fault_of (Q n) }
{
    let faults = [
        Fault::QuestionByte,
        Fault::QuestionLong,
        Fault::QuestionToken,
    ];
    nth(&faults, n)
}

/// The fault of that number, from 1.
fn nth(faults: &[Fault], number: u8) -> Option<Fault>
    ensures { result ≡ slice_get faults.now (number - 1) }
{
    faults.get(usize::from(number).saturating_sub(1)).copied()
}
