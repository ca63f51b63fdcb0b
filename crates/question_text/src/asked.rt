ghost use Rattle.std.specs.Prelude.{[], ◌∷◌, IfErr, IfOk, map};
ghost use Rattle.bspl_types.specs.NamedParts.{IsMessageNamed, IsParamNamed, IsRoleNamed};
ghost use Rattle.questions.specs.Subject.{IsAbout};
ghost use Rattle.question_text.specs.declared.unknown.UnknownName.TheVariants as unknown;
ghost use Rattle.question_text.specs.Meaning.{AreMessagesNamed, AsksQuestion, Says};
ghost use Rattle.question_text.specs.Unknown.{IsNotAsked, IsUnknownIn, names_in_said};

use super::meaning_laws::asked_of_the_protocol;
use super::tree::{Said, Tree};
use super::unknown::UnknownName;
use bspl_types::{Expanded, Name, NumberList};
use list_base::{Seq, TryClone};
use questions::{Happening, Question};
use std::alloc::Global;

/// The question that the tree asks of the protocol. A refusal is the first name in the order of the
/// text that the protocol does not have.
pub fn question_of(alloc: Global, x: &Expanded, tree: &Tree) -> Result<Question, UnknownName>
    ensures asks { IfOk result (AsksQuestion x.now tree.now) }
    ensures about { IfOk result (IsAbout x.now) }
    ensures refused { IfErr result (IsNotAsked x.now tree.now) }
{
    // law: what a tree asks of a protocol is about it
    asked_of_the_protocol();
    meaning_of(alloc, x, tree)
}

/// The question that the tree asks of the protocol.
fn meaning_of(alloc: Global, x: &Expanded, tree: &Tree) -> Result<Question, UnknownName>
    ensures asks { IfOk result (AsksQuestion x.now tree.now) }
    ensures refused { IfErr result (IsNotAsked x.now tree.now) }
{
    match tree {
        Tree::Happened(one) => Ok(Question::Happened(happening_of(x, one)?)),
        Tree::Before(one, other) => {
            let one = happening_of(x, one)?;
            let other = happening_of(x, other)?;
            Ok(Question::Before(one, other))
        }
        Tree::After(one, other) => {
            let one = happening_of(x, one)?;
            let other = happening_of(x, other)?;
            let happened = Box::new(alloc, Question::Happened(one))?;
            let before = Box::new(alloc, Question::Before(other, one))?;
            Ok(Question::And(happened, before))
        }
        Tree::Can(message) => Ok(Question::Can(message_number(x, message)?)),
        Tree::Rest(excused) => Ok(Question::Rest(message_numbers(alloc, x, excused.as_slice())?)),
        Tree::Not(tree) => {
            let question = meaning_of(alloc, x, tree)?;
            Ok(Question::Not(Box::new(alloc, question)?))
        }
        Tree::And(one, other) => {
            let one = meaning_of(alloc, x, one)?;
            let other = meaning_of(alloc, x, other)?;
            Ok(Question::And(Box::new(alloc, one)?, Box::new(alloc, other)?))
        }
        Tree::Or(one, other) => {
            let one = meaning_of(alloc, x, one)?;
            let other = meaning_of(alloc, x, other)?;
            Ok(Question::Or(Box::new(alloc, one)?, Box::new(alloc, other)?))
        }
        Tree::Bracketed(tree) => meaning_of(alloc, x, tree),
    }
}

/// What is said to have happened.
fn happening_of(x: &Expanded, one: &Said) -> Result<Happening, UnknownName>
    ensures says { IfOk result (Says x.now one.now) }
    ensures refused { IfErr result (IsUnknownIn x.now (names_in_said one.now)) }
{
    match one {
        Said::Sent(message) => Ok(Happening::Sent(message_number(x, message)?)),
        Said::Received(message) => Ok(Happening::Received(message_number(x, message)?)),
        Said::Knows { role, param } => {
            let role = role_number(x, role)?;
            let param = param_number(x, param)?;
            Ok(Happening::Knows { role, param })
        }
        Said::Bound(param) => Ok(Happening::Bound(param_number(x, param)?)),
    }
}

/// The messages of the names.
fn message_numbers(alloc: Global, x: &Expanded, names: &[Name]) -> Result<NumberList, UnknownName>
    ensures named { IfOk result (AreMessagesNamed x.now names.now) }
    ensures refused { IfErr result (IsUnknownIn x.now (map unknown.Message names.now)) }
{
    let mut numbers = Seq::new(alloc);
    for name in names {
        let number = message_number(x, name)?;
        numbers.push(number)?;
    }
    Ok(numbers)
}

/// The message of the name.
fn message_number(x: &Expanded, name: &Name) -> Result<u32, UnknownName>
    ensures named { IfOk result (IsMessageNamed x.now name.now) }
    ensures refused { IfErr result (IsUnknownIn x.now (unknown.Message name.now ∷ [])) }
{
    match x.message_named(name.as_slice()) {
        Some(message) => Ok(message),
        None => Err(UnknownName::Message(name.try_clone()?)),
    }
}

/// The role of the name.
fn role_number(x: &Expanded, name: &Name) -> Result<u32, UnknownName>
    ensures named { IfOk result (IsRoleNamed x.now name.now) }
    ensures refused { IfErr result (IsUnknownIn x.now (unknown.Role name.now ∷ [])) }
{
    match x.role_named(name.as_slice()) {
        Some(role) => Ok(role),
        None => Err(UnknownName::Role(name.try_clone()?)),
    }
}

/// The parameter of the name.
fn param_number(x: &Expanded, name: &Name) -> Result<u32, UnknownName>
    ensures named { IfOk result (IsParamNamed x.now name.now) }
    ensures refused { IfErr result (IsUnknownIn x.now (unknown.Parameter name.now ∷ [])) }
{
    match x.param_named(name.as_slice()) {
        Some(param) => Ok(param),
        None => Err(UnknownName::Parameter(name.try_clone()?)),
    }
}
