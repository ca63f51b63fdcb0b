ghost use Rattle.std.specs.Prelude.{◌≡◌, ◌≢◌, ◌≤◌, [], ◌∷◌, length, map, string_bytes, IfOk, MatchOption};
ghost use Rattle.bspl_types.specs.declared.property.Property.{Property as SpecProperty};
ghost use Rattle.more_commands.specs.FormulaArguments.{NamesFormula, property_word};
ghost use Rattle.more_commands.specs.declared.wording.TheConstants as wording;
ghost use Rattle.more_commands.specs.declared.word.CommandWord.TheVariants as word;
ghost use Rattle.more_commands.specs.inner.Question.{IsAskedBy, IsSubjectOf, subject_of};

use super::command::MoreCommand;
use super::question::MoreQuestion;
use super::wording::{ASK, DEAD, LIVENESS, SAFETY};
use ask_commands::{Misread, question_or_misread};
use bspl_types::{Property, is_name};
use list_base::NoMemory;
use question_text::Tree;
use std::alloc::Global;
use tool_input::Rejection;

/// The most bytes of a question, whose offsets a count of 32 bits can give.
const MOST_BYTES: usize = 4_294_967_295;

/// Which formula of a protocol.
#[derive(Drop)]
pub enum FormulaArgs<'a> {
    /// That of the property.
    Property(Property),
    /// That of the message of the name.
    Message(&'a [u8]),
    /// That of the question.
    Question(Tree),
    /// None: the text is no question, for this reason.
    Misread(Misread),
}

impl FormulaArgs<'_> {
    ghost use Rattle.std.specs.Prelude.{◌≡◌};
    ghost use Rattle.more_commands.specs.FormulaArguments.{formula_refused_at_once};
    ghost use Rattle.more_commands.specs.inner.Question.{subject_of};

    /// Why no formula is asked for.
    pub fn refused_at_once(&self) -> Option<Rejection>
        ensures { result ≡ formula_refused_at_once (subject_of self.now) }
    {
        match self {
            FormulaArgs::Misread(misread) => Some(misread.rejection()),
            _ => None,
        }
    }
}

/// What the arguments of `formula` ask, if they are valid.
pub(crate) fn formula_question<'a>(
    alloc: Global,
    args: &'a [String],
) -> Result<Option<MoreQuestion<'a>>, NoMemory>
    ensures { IfOk result (IsAskedBy word.Formula (map string_bytes args.now)) }
{
    let Some((name, words)) = args.split_first() else {
        return Ok(None);
    };
    if !is_name(name.as_bytes()) {
        return Ok(None);
    }
    match subject_asked(alloc, words)? {
        Some(subject) => Ok(Some(MoreQuestion {
            name: name.as_bytes(),
            command: MoreCommand::Formula(subject),
        })),
        None => Ok(None),
    }
}

/// Which formula the words stand for.
fn subject_asked<'a>(
    alloc: Global,
    words: &'a [String],
) -> Result<Option<FormulaArgs<'a>>, NoMemory>
    ensures { IfOk result (IsSubjectOf (map string_bytes words.now)) }
{
    match words {
        [word] => Ok(property_asked(word.as_bytes())),
        [word, text] => subject_with_text(alloc, word.as_bytes(), text.as_bytes()),
        _ => Ok(None),
    }
}

/// The formula of a property, if the word stands for one.
fn property_asked<'a>(word: &[u8]) -> Option<FormulaArgs<'a>>
    ensures { IsSubjectOf (word.now ∷ []) result }
{
    Some(FormulaArgs::Property(property_of(word)?))
}

/// The property that the word stands for.
fn property_of(word: &[u8]) -> Option<Property>
    ensures { MatchOption result
        ((property : SpecProperty) → word.now ≢ property_word property)
        (λ property. word.now ≡ property_word property) }
{
    if word == SAFETY {
        Some(Property::Safety)
    } else if word == LIVENESS {
        Some(Property::Liveness)
    } else {
        None
    }
}

/// The formula of a message or of a question, as the first word says.
fn subject_with_text<'a>(
    alloc: Global,
    word: &[u8],
    text: &'a [u8],
) -> Result<Option<FormulaArgs<'a>>, NoMemory>
    ensures { IfOk result (IsSubjectOf (word.now ∷ text.now ∷ [])) }
{
    if word == DEAD && is_name(text) {
        return Ok(Some(FormulaArgs::Message(text)));
    }
    if word == ASK && text.len() <= MOST_BYTES {
        return Ok(Some(question_asked(alloc, text)?));
    }
    Ok(None)
}

/// The formula of a question, if the text is one.
fn question_asked<'a>(alloc: Global, text: &[u8]) -> Result<FormulaArgs<'a>, NoMemory>
    requires { length text.now ≤ 4294967295 }
    ensures { IfOk result (λ args.
        NamesFormula (wording.ASK.now ∷ text.now ∷ []) (subject_of args)) }
{
    match question_or_misread(alloc, text)? {
        Ok(question) => Ok(FormulaArgs::Question(question)),
        Err(misread) => Ok(FormulaArgs::Misread(misread)),
    }
}
