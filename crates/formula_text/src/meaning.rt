ghost use Rattle.std.specs.Prelude.{◌≡◌, ◌++◌, map, OnOk};
ghost use Rattle.formula_text.specs.FormulaText.{meaning_line};
ghost use Rattle.formula_text.specs.inner.Lines.{spaced};

use list_base::{Bytes, NoMemory};
use text_lines::push_decimal;

/// Appends the line of a variable and the words that say what it means.
pub(crate) fn push_meaning(text: &mut Bytes, variable: u32, words: &[&[u8]]) -> Result<(), NoMemory>
    ensures { OnOk result
        (text.new ≡ text.old ++ meaning_line (variable, map (λ word. word.now) words.now)) }
{
    text.append(b"c ")?;
    push_decimal(text, u64::from(variable))?;
    push_spaced(text, words)?;
    text.push(b'\n')
}

/// Appends the words, each after a space.
fn push_spaced(text: &mut Bytes, words: &[&[u8]]) -> Result<(), NoMemory>
    ensures { OnOk result (text.new ≡ text.old ++ spaced (map (λ word. word.now) words.now)) }
{
    for word in words {
        text.push(b' ')?;
        text.append(word)?;
    }
    Ok(())
}
