ghost use Rattle.std.specs.Prelude.{◌≡◌, IfOk};

use bspl_parser::{Formal, FormalList, Text, Word, WordList, equal_words};
use bspl_types::{NoMemory, Seq};
use std::alloc::Global;

/// A copy of the word, to which the word lends its text.
pub(crate) fn copied_word<'d>(word: &'d Word<'d>) -> Word<'d>
    ensures { result ≡ word.now }
{
    // law: words of one text and one offset are equal
    equal_words();
    Word {
        text: Text::lent(word.text.as_slice()),
        offset: word.offset,
    }
}

/// A copy of the word, which shares its text.
pub(crate) fn shared_word<'d>(word: &Word<'d>) -> Result<Word<'d>, NoMemory>
    ensures { IfOk result (λ w. w ≡ word.now) }
{
    // law: words of one text and one offset are equal
    equal_words();
    Ok(Word {
        text: word.text.share()?,
        offset: word.offset,
    })
}

/// Copies of the words.
pub(crate) fn copied_words<'d>(
    alloc: Global,
    words: &'d [Word<'d>],
) -> Result<WordList<'d>, NoMemory>
    ensures { IfOk result (λ ws. ws ≡ words.now) }
{
    let mut copies = Seq::new(alloc);
    for word in words {
        copies.push(copied_word(word))?;
    }
    Ok(copies)
}

/// A copy of the parameter.
fn copied_formal<'d>(formal: &'d Formal<'d>) -> Formal<'d>
    ensures { result ≡ formal.now }
{
    Formal {
        adorn: formal.adorn,
        offset: formal.offset,
        name: copied_word(&formal.name),
        key: formal.key,
    }
}

/// Copies of the parameters.
pub(crate) fn copied_formals<'d>(
    alloc: Global,
    formals: &'d [Formal<'d>],
) -> Result<FormalList<'d>, NoMemory>
    ensures { IfOk result (λ fs. fs ≡ formals.now) }
{
    let mut copies = Seq::new(alloc);
    for formal in formals {
        copies.push(copied_formal(formal))?;
    }
    Ok(copies)
}
