ghost use Rattle.std.specs.Prelude.{◌≡◌, ◌≢◌, MatchOption};
ghost use Rattle.more_commands.specs.declared.word.CommandWord.{CommandWord as SpecWord};
ghost use Rattle.more_commands.specs.Task.{word_text};

use super::wording;

/// The word of a command.
#[derive(Clone, Copy, Debug, PartialEq, Eq)]
pub enum CommandWord {
    Ask,
    Formula,
    Lrat,
    Page,
    Explain,
}

/// The command whose word this is.
pub(crate) fn word_of(text: &[u8]) -> Option<CommandWord>
    ensures { MatchOption result
        ((word : SpecWord) → text.now ≢ word_text word)
        (λ word. text.now ≡ word_text word) }
{
    if text == wording::ASK {
        Some(CommandWord::Ask)
    } else if text == wording::FORMULA {
        Some(CommandWord::Formula)
    } else if text == wording::LRAT {
        Some(CommandWord::Lrat)
    } else if text == wording::PAGE {
        Some(CommandWord::Page)
    } else if text == wording::EXPLAIN {
        Some(CommandWord::Explain)
    } else {
        None
    }
}
