ghost use Rattle.std.specs.Prelude.{◌≡◌, ◌∷◌, ◌++◌, IfOk, take};
ghost use Rattle.std.specs.List.{flat_map};
ghost use Rattle.run_chart.specs.Knowledge.{field};
ghost use Rattle.run_chart.specs.Words.{ellipsis};

use super::knowledge::{Pair, push_field};
use super::wording::ELLIPSIS;
use bspl_types::Expanded;
use list_base::{Bytes, NoMemory};
use std::alloc::Global;

/// A name, and after it each pair as a field.
pub(crate) fn name_and_fields(
    alloc: Global,
    x: &Expanded,
    name: &[u8],
    pairs: &[Pair],
) -> Result<Bytes, NoMemory>
    ensures { IfOk result (λ words. words ≡
        name.now ++ flat_map (λ (c, v). 32 ∷ field x.now c.param v) pairs.now) }
{
    let mut words = Bytes::from_slice(alloc, name)?;
    for pair in pairs {
        words.push(b' ')?;
        push_field(&mut words, x, pair.0.param, &pair.1)?;
    }
    Ok(words)
}

/// No more than so many bytes of the words.
pub(crate) fn cut(most: usize, words: &[u8]) -> &[u8]
    ensures { result.now ≡ take most words.now }
{
    if words.len() <= most {
        words
    } else {
        &words[..most]
    }
}

/// That words go on, if there are more bytes.
pub(crate) fn ellipsis(most: usize, words: &[u8]) -> &'static [u8]
    ensures { result.now ≡ ellipsis most words.now }
{
    if words.len() <= most { b"" } else { ELLIPSIS }
}
