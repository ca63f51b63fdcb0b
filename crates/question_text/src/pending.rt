ghost use Rattle.std.specs.Prelude.{◌≡◌, IfOk};
ghost use Rattle.std.specs.Option.{option_map};
ghost use Rattle.question_text.specs.inner.Pending.{awaiting_of, nothing_awaits, question_with};
ghost use Rattle.question_text.specs.inner.Pending.{under_nots, with_conjunct};
ghost use Rattle.question_text.specs.Tree.{phrase_of};

use super::tree::Tree;
use list_base::NoMemory;
use std::alloc::Global;

/// What has been read of a question before the last factor: the question before `or`, the term
/// before `and`, and the number of `not`s.
#[derive(Drop)]
pub(crate) struct Pending {
    pub disjunct: Option<Tree>,
    pub conjunct: Option<Tree>,
    pub nots: usize,
}

/// What has been read outside of the brackets that are open, the innermost first.
#[derive(Drop)]
pub(crate) enum Outer {
    Nothing,
    Within(Pending, Box<Outer>),
}

impl Pending {
    /// Nothing.
    pub fn nothing() -> Pending
        ensures { awaiting_of result ≡ nothing_awaits }
    {
        Pending {
            disjunct: None,
            conjunct: None,
            nots: 0,
        }
    }

    /// The question that the factor completes.
    pub fn question(self, alloc: Global, factor: Tree) -> Result<Tree, NoMemory>
        ensures { IfOk result (λ t.
            phrase_of t ≡ question_with (awaiting_of self) (phrase_of factor)) }
    {
        let term = complete_term(alloc, self.conjunct, self.nots, factor)?;
        match self.disjunct {
            None => Ok(term),
            Some(question) => Ok(Tree::Or(Box::new(alloc, question)?, Box::new(alloc, term)?)),
        }
    }
}

/// The term that the factor with that number of `not`s before it completes.
pub(crate) fn complete_term(
    alloc: Global,
    conjunct: Option<Tree>,
    nots: usize,
    factor: Tree,
) -> Result<Tree, NoMemory>
    ensures { IfOk result (λ t. phrase_of t
        ≡ with_conjunct (option_map phrase_of conjunct) (under_nots nots (phrase_of factor))) }
{
    let negated = negate(alloc, nots, factor)?;
    match conjunct {
        None => Ok(negated),
        Some(term) => Ok(Tree::And(Box::new(alloc, term)?, Box::new(alloc, negated)?)),
    }
}

/// The factor with that number of `not`s before it.
fn negate(alloc: Global, nots: usize, factor: Tree) -> Result<Tree, NoMemory>
    ensures { IfOk result (λ t. phrase_of t ≡ under_nots nots (phrase_of factor)) }
{
    let mut negated = factor;
    for i in 0..nots {
        negated = Tree::Not(Box::new(alloc, negated)?);
    }
    Ok(negated)
}
