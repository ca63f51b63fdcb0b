ghost use Rattle.std.specs.Prelude.{◌≡◌, IfOk};
ghost use Rattle.std.specs.Option.{option_map};
ghost use Rattle.question_text.specs.declared.reading.Misstep.TheVariants as misstep;
ghost use Rattle.question_text.specs.inner.Pending.{awaiting_of, question_with};
ghost use Rattle.question_text.specs.inner.Progress.{at_start, whole_question};
ghost use Rattle.question_text.specs.inner.Reading.{progress_of};
ghost use Rattle.question_text.specs.Tree.{phrase_of};

use super::part::{Part, factor_of};
use super::pending::{Outer, Pending};
use super::tree::Tree;
use list_base::NoMemory;
use std::alloc::{AllocFailed, Global};

/// Why a word is not read.
#[derive(Clone, Copy)]
pub(crate) enum Misstep {
    /// No question has the word here.
    Misplaced,
    /// Memory ran out.
    NoMemory,
}

impl From<NoMemory> for Misstep {
    ghost from_gives = { λ _ given. given ≡ misstep.NoMemory };

    fn from(_error: NoMemory) -> Misstep {
        Misstep::NoMemory
    }
}

impl<T: Drop> From<AllocFailed<T>> for Misstep {
    ghost from_gives = { λ _ given. given ≡ misstep.NoMemory };

    fn from(_error: AllocFailed<T>) -> Misstep {
        Misstep::NoMemory
    }
}

/// What has been read of a question: the last factor as far as it goes, and what waits for it,
/// within the innermost brackets that are open and outside of them.
#[derive(Drop)]
pub(crate) struct Reading {
    pub part: Part,
    pub inside: Pending,
    pub outside: Outer,
}

impl Reading {
    /// Nothing yet.
    pub fn start() -> Reading
        ensures { progress_of result ≡ at_start }
    {
        Reading {
            part: Part::Nothing,
            inside: Pending::nothing(),
            outside: Outer::Nothing,
        }
    }

    /// The question, if what has been read is one.
    pub fn whole(self, alloc: Global) -> Result<Option<Tree>, NoMemory>
        ensures { IfOk result (λ q. option_map phrase_of q ≡ whole_question (progress_of self)) }
    {
        let Reading {
            part,
            inside,
            outside,
        } = self;
        match outside {
            Outer::Nothing => whole_inside(alloc, inside, factor_of(part)),
            Outer::Within(_, _) => Ok(None),
        }
    }
}

/// The question that the factor completes, if there is a factor.
fn whole_inside(
    alloc: Global,
    inside: Pending,
    factor: Option<Tree>,
) -> Result<Option<Tree>, NoMemory>
    ensures { IfOk result (λ q. option_map phrase_of q
        ≡ option_map (question_with (awaiting_of inside)) (option_map phrase_of factor)) }
{
    match factor {
        None => Ok(None),
        Some(factor) => Ok(Some(inside.question(alloc, factor)?)),
    }
}
