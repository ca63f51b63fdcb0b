ghost use Rattle.std.specs.Prelude.{IfOk, IfErr};
ghost use Rattle.std.specs.Option.{option_map};
ghost use Rattle.question_text.specs.inner.Pending.{awaiting_of, awaiting_outside};
ghost use Rattle.question_text.specs.inner.Piece.{piece_of};
ghost use Rattle.question_text.specs.inner.Progress.{with_piece};
ghost use Rattle.question_text.specs.inner.Reading.{IsNameOf, IsNoName, IsStep, progress_of};
ghost use Rattle.question_text.specs.inner.Step.{after_factor, after_rest, after_said};
ghost use Rattle.question_text.specs.inner.Step.{begin_factor, close_bracket, step};
ghost use Rattle.question_text.specs.Tree.{phrase_of};

use super::keyword::{Keyword, keyword_of};
use super::part::{Part, Place, begin_said, is_but, link_of, placed, said_of};
use super::pending::{Outer, Pending, complete_term};
use super::reading::{Misstep, Reading};
use super::tree::{Said, Tree};
use bspl_types::{Name, is_name};
use list_base::Seq;
use std::alloc::Global;

/// The reading after one more word.
pub(crate) fn step(alloc: Global, reading: Reading, word: &[u8]) -> Result<Reading, Misstep>
    ensures { IsStep (step (progress_of reading) word.now) result }
{
    let Reading {
        part,
        inside,
        outside,
    } = reading;
    match part {
        Part::Nothing => begin_factor(alloc, inside, outside, keyword_of(word)),
        Part::Linked(link, one) => {
            let place = Place::Second(link, one);
            with_part(inside, outside, begin_said(place, keyword_of(word)))
        }
        Part::Verb(place, verb) => {
            let said = said_of(verb, name_of(alloc, word)?);
            with_part(inside, outside, Some(placed(place, said)))
        }
        Part::Knows(place) => {
            let role = name_of(alloc, word)?;
            with_part(inside, outside, Some(Part::KnowsRole(place, role)))
        }
        Part::KnowsRole(place, role) => {
            let param = name_of(alloc, word)?;
            let said = Said::Knows { role, param };
            with_part(inside, outside, Some(placed(place, said)))
        }
        Part::Once(said) => after_said(alloc, inside, outside, said, keyword_of(word)),
        Part::Can => {
            let message = name_of(alloc, word)?;
            with_part(inside, outside, Some(Part::Whole(Tree::Can(message))))
        }
        Part::Rest(excused) => after_rest(alloc, inside, outside, excused, keyword_of(word)),
        Part::But(mut excused) => {
            excused.push(name_of(alloc, word)?)?;
            with_part(inside, outside, Some(Part::Rest(excused)))
        }
        Part::Whole(factor) => after_factor(alloc, inside, outside, factor, keyword_of(word)),
    }
}

/// The word, if it is a name.
fn name_of(alloc: Global, word: &[u8]) -> Result<Name, Misstep>
    ensures name { IfOk result (IsNameOf word.now) }
    ensures none { IfErr result (IsNoName word.now) }
{
    if !is_name(word) {
        return Err(Misstep::Misplaced);
    }
    Ok(Seq::from_slice(alloc, word)?)
}

/// The reading with that part, if there is one.
fn with_part(inside: Pending, outside: Outer, part: Option<Part>) -> Result<Reading, Misstep>
    ensures { IsStep (with_piece (awaiting_of inside) (awaiting_outside outside)
        (option_map piece_of part)) result }
{
    match part {
        Some(part) => Ok(Reading {
            part,
            inside,
            outside,
        }),
        None => Err(Misstep::Misplaced),
    }
}

/// The reading after the first word of a factor. More `not`s than can be counted count as memory
/// run out.
fn begin_factor(
    alloc: Global,
    inside: Pending,
    outside: Outer,
    keyword: Option<Keyword>,
) -> Result<Reading, Misstep>
    ensures { IsStep (begin_factor (awaiting_of inside) (awaiting_outside outside) keyword) result }
{
    match keyword {
        Some(Keyword::Not) => {
            let Some(nots) = inside.nots.checked_add(1) else {
                return Err(Misstep::NoMemory);
            };
            let inside = Pending { nots, ..inside };
            with_part(inside, outside, Some(Part::Nothing))
        }
        Some(Keyword::Open) => {
            let outside = Outer::Within(inside, Box::new(alloc, outside)?);
            with_part(Pending::nothing(), outside, Some(Part::Nothing))
        }
        Some(Keyword::Rest) => with_part(inside, outside, Some(Part::Rest(Seq::new(alloc)))),
        Some(Keyword::Can) => with_part(inside, outside, Some(Part::Can)),
        keyword => with_part(inside, outside, begin_said(Place::First, keyword)),
    }
}

/// The reading after a word that follows a first happening.
fn after_said(
    alloc: Global,
    inside: Pending,
    outside: Outer,
    said: Said,
    keyword: Option<Keyword>,
) -> Result<Reading, Misstep>
    ensures { IsStep (after_said (awaiting_of inside) (awaiting_outside outside) said keyword)
        result }
{
    match link_of(keyword) {
        Some(link) => with_part(inside, outside, Some(Part::Linked(link, said))),
        None => after_factor(alloc, inside, outside, Tree::Happened(said), keyword),
    }
}

/// The reading after a word that follows `rest` and some excused messages.
fn after_rest(
    alloc: Global,
    inside: Pending,
    outside: Outer,
    excused: Seq<Name>,
    keyword: Option<Keyword>,
) -> Result<Reading, Misstep>
    ensures { IsStep (after_rest (awaiting_of inside) (awaiting_outside outside) excused keyword)
        result }
{
    if is_but(keyword) {
        with_part(inside, outside, Some(Part::But(excused)))
    } else {
        after_factor(alloc, inside, outside, Tree::Rest(excused), keyword)
    }
}

/// The reading after a word that follows a whole factor.
fn after_factor(
    alloc: Global,
    inside: Pending,
    outside: Outer,
    factor: Tree,
    keyword: Option<Keyword>,
) -> Result<Reading, Misstep>
    ensures { IsStep (after_factor (awaiting_of inside) (awaiting_outside outside)
        (phrase_of factor) keyword) result }
{
    match keyword {
        Some(Keyword::And) => {
            let term = complete_term(alloc, inside.conjunct, inside.nots, factor)?;
            let inside = Pending {
                disjunct: inside.disjunct,
                conjunct: Some(term),
                nots: 0,
            };
            with_part(inside, outside, Some(Part::Nothing))
        }
        Some(Keyword::Or) => {
            let inside = Pending {
                disjunct: Some(inside.question(alloc, factor)?),
                conjunct: None,
                nots: 0,
            };
            with_part(inside, outside, Some(Part::Nothing))
        }
        Some(Keyword::Close) => close_bracket(alloc, outside, inside.question(alloc, factor)?),
        _ => Err(Misstep::Misplaced),
    }
}

/// The reading after the brackets round the question are closed.
fn close_bracket(alloc: Global, outside: Outer, question: Tree) -> Result<Reading, Misstep>
    ensures { IsStep (close_bracket (awaiting_outside outside) (phrase_of question)) result }
{
    match outside {
        Outer::Nothing => Err(Misstep::Misplaced),
        Outer::Within(inside, outside) => {
            let factor = Tree::Bracketed(Box::new(alloc, question)?);
            with_part(inside, Box::into_inner(outside), Some(Part::Whole(factor)))
        }
    }
}
