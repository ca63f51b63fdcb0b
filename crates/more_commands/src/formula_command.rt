ghost use Rattle.std.specs.Prelude.{◌≡◌, IfErr, IfOk};
ghost use Rattle.ask_commands.specs.AskAnswer.{IsAskRefused};
ghost use Rattle.question_text.specs.Tree.{phrase_of};
ghost use Rattle.tool_input.specs.Error.{RejectsFor};
ghost use Rattle.tool_input.specs.declared.status.Status.TheVariants.{Done};
ghost use Rattle.more_commands.specs.FormulaAnswer.{HasNoMessage, IsAskedText, IsFormulaRefused};
ghost use Rattle.more_commands.specs.FormulaAnswer.{IsNamedText, PrintsFormula};
ghost use Rattle.more_commands.specs.inner.Question.{subject_of};

use super::formula_arguments::FormulaArgs;
use ask_commands::asked;
use bspl_types::Admitted;
use formula_text::{enact_formula_text, formula_text, question_formula_text};
use list_base::Bytes;
use program_frame::Reply;
use question_text::{Tree, write_spelling};
use std::alloc::Global;
use tool_input::{AnswerError, Status, unknown_message};

/// Answers `formula`.
pub fn formula(
    alloc: Global,
    protocol: &Admitted,
    args: &FormulaArgs<'_>,
) -> Result<Reply<Status>, AnswerError>
    ensures ok { IfOk result (λ reply.
        PrintsFormula protocol.now (subject_of args.now) reply.text reply.status) }
    ensures refused { IfErr result
        (RejectsFor (IsFormulaRefused protocol.now (subject_of args.now))) }
{
    match args {
        FormulaArgs::Property(property) => Ok(printed(formula_text(alloc, *property, protocol)?)),
        FormulaArgs::Message(name) => Ok(printed(message_text(alloc, protocol, name)?)),
        FormulaArgs::Question(question) => Ok(printed(asked_text(alloc, protocol, question)?)),
        FormulaArgs::Misread(misread) => Err(AnswerError::Rejected(misread.rejection())),
    }
}

/// The text of the formula in which the message of the name is sent.
fn message_text(alloc: Global, protocol: &Admitted, name: &[u8]) -> Result<Bytes, AnswerError>
    ensures ok { IfOk result (IsNamedText protocol.now name.now) }
    ensures refused { IfErr result (RejectsFor (HasNoMessage protocol.now name.now)) }
{
    match protocol.expanded().message_named(name) {
        Some(message) => Ok(enact_formula_text(alloc, protocol, message)?),
        None => Err(AnswerError::Rejected(unknown_message(alloc, name)?)),
    }
}

/// The text of the question's formula.
fn asked_text(alloc: Global, protocol: &Admitted, tree: &Tree) -> Result<Bytes, AnswerError>
    ensures ok { IfOk result (IsAskedText protocol.now (phrase_of tree.now)) }
    ensures refused { IfErr result (RejectsFor (IsAskRefused protocol.now (phrase_of tree.now))) }
{
    let question = asked(alloc, protocol.expanded(), tree)?;
    let spelling = write_spelling(alloc, tree)?;
    Ok(question_formula_text(alloc, protocol, &question, spelling.as_slice())?)
}

/// The reply that gives the text of a formula.
fn printed(text: Bytes) -> Reply<Status>
    ensures text { result.text ≡ text }
    ensures done { result.status ≡ Done }
{
    Reply {
        status: Status::Done,
        text,
    }
}
