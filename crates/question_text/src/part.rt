ghost use Rattle.std.specs.Prelude.{◌≡◌};
ghost use Rattle.std.specs.Option.{option_map};
ghost use Rattle.question_text.specs.inner.Piece.{factor_of, is_but, link_of, piece_of, placed};
ghost use Rattle.question_text.specs.inner.Piece.{said_of};
ghost use Rattle.question_text.specs.Tree.{phrase_of};
ghost use Rattle.question_text.specs.inner.Step.{begin_said};

use super::keyword::Keyword;
use super::tree::{Said, Tree};
use bspl_types::Name;
use list_base::Seq;

/// How a second happening is joined to the first.
#[derive(Clone, Copy)]
pub(crate) enum Link {
    Before,
    After,
}

/// What is said of one name.
#[derive(Clone, Copy)]
pub(crate) enum Verb {
    Sent,
    Received,
    Bound,
}

/// Where a happening stands: first, or after another and the word that joins the two.
#[derive(Drop)]
pub(crate) enum Place {
    First,
    Second(Link, Said),
}

/// What has been read of a factor, after its `not`s.
#[derive(Drop)]
pub(crate) enum Part {
    /// Nothing yet.
    Nothing,
    /// A happening, and the word that joins a second one to it.
    Linked(Link, Said),
    /// A happening up to its name.
    Verb(Place, Verb),
    /// A happening up to its role.
    Knows(Place),
    /// A happening up to its parameter.
    KnowsRole(Place, Name),
    /// A happening, which a second one may follow.
    Once(Said),
    /// The word `can`.
    Can,
    /// The word `rest` and the excused messages, which more may follow.
    Rest(Seq<Name>),
    /// The same, and a further `but`.
    But(Seq<Name>),
    /// All of it.
    Whole(Tree),
}

/// What has been read of a happening at that place after its first word.
pub(crate) fn begin_said(place: Place, keyword: Option<Keyword>) -> Option<Part>
    ensures { option_map piece_of result ≡ begin_said place keyword }
{
    match keyword {
        Some(Keyword::Sent) => Some(Part::Verb(place, Verb::Sent)),
        Some(Keyword::Received) => Some(Part::Verb(place, Verb::Received)),
        Some(Keyword::Bound) => Some(Part::Verb(place, Verb::Bound)),
        Some(Keyword::Knows) => Some(Part::Knows(place)),
        _ => None,
    }
}

/// What has been read after a whole happening at that place.
pub(crate) fn placed(place: Place, said: Said) -> Part
    ensures { piece_of result ≡ placed place said }
{
    match place {
        Place::First => Part::Once(said),
        Place::Second(Link::Before, one) => Part::Whole(Tree::Before(one, said)),
        Place::Second(Link::After, one) => Part::Whole(Tree::After(one, said)),
    }
}

/// The happening of that name.
pub(crate) fn said_of(verb: Verb, name: Name) -> Said
    ensures { result ≡ said_of verb name }
{
    match verb {
        Verb::Sent => Said::Sent(name),
        Verb::Received => Said::Received(name),
        Verb::Bound => Said::Bound(name),
    }
}

/// The factor, if all of one has been read.
pub(crate) fn factor_of(part: Part) -> Option<Tree>
    ensures { option_map phrase_of result ≡ factor_of (piece_of part) }
{
    match part {
        Part::Once(said) => Some(Tree::Happened(said)),
        Part::Rest(excused) => Some(Tree::Rest(excused)),
        Part::Whole(factor) => Some(factor),
        _ => None,
    }
}

/// The word, if it joins a second happening.
pub(crate) fn link_of(keyword: Option<Keyword>) -> Option<Link>
    ensures { result ≡ link_of keyword }
{
    match keyword {
        Some(Keyword::Before) => Some(Link::Before),
        Some(Keyword::After) => Some(Link::After),
        _ => None,
    }
}

/// Whether the word is `but`.
pub(crate) fn is_but(keyword: Option<Keyword>) -> bool
    ensures { result ≡ is_but keyword }
{
    matches!(keyword, Some(Keyword::But))
}
