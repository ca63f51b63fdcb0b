ghost use Rattle.std.specs.Prelude.{◌≡◌, ◌++◌, codes, OnOk};
ghost use Rattle.std.specs.List.{flat_map, join_by};
ghost use Rattle.bspl_parser.specs.Layout.{indented_line};

use bspl_types::{Bytes, NoMemory};

/// What is printed in one way.
pub trait Print {
    ghost use Rattle.std.specs.Prelude.{List, ℕ};

    /// Its text in the layout of documents.
    ghost printed: { Self → List ℕ };

    /// Adds its text.
    fn add_to(&self, text: &mut Bytes) -> Result<(), NoMemory>
        ensures { OnOk result (text.new ≡ text.old ++ printed self.now) };
}

/// Adds the text of each item, with those bytes before it.
pub fn add_each<T: Print>(text: &mut Bytes, before: &[u8], items: &[T]) -> Result<(), NoMemory>
    ensures { OnOk result
        (text.new ≡ text.old ++ flat_map (λ x. before.now ++ T.printed x) items.now) }
{
    for item in items {
        text.append(before)?;
        item.add_to(text)?;
    }
    Ok(())
}

/// Adds the texts of the items, with those bytes between each two.
pub fn add_joined<T: Print>(text: &mut Bytes, between: &[u8], items: &[T]) -> Result<(), NoMemory>
    ensures { OnOk result (text.new ≡ text.old ++ join_by T.printed between.now items.now) }
{
    match items {
        [] => Ok(()),
        [first, rest @ ..] => {
            first.add_to(text)?;
            add_each(text, between, rest)
        }
    }
}

/// Adds an indented line.
pub fn add_line<T: Print>(text: &mut Bytes, item: &T) -> Result<(), NoMemory>
    ensures { OnOk result (text.new ≡ text.old ++ indented_line (T.printed item.now)) }
{
    text.append(b"  ")?;
    item.add_to(text)?;
    text.push(b'\n')
}

/// Adds an indented line that has a word and a list.
pub fn add_list_line<T: Print>(text: &mut Bytes, word: &[u8], items: &[T]) -> Result<(), NoMemory>
    ensures { let list = join_by T.printed (codes ", ") items.now in
        OnOk result (text.new ≡ text.old ++ indented_line (word.now ++ list)) }
{
    text.append(b"  ")?;
    text.append(word)?;
    add_joined(text, b", ", items)?;
    text.push(b'\n')
}
