ghost use Rattle.std.specs.Prelude.{◌≡◌};
ghost use Rattle.text_lines.specs.Fields.{fields_of};
ghost use Rattle.answer_words.specs.ScriptRule.{line_fields, naming_words, line_rule, word_of};

use super::wording::refusals;
use text_lines::first_field;

/// The line without a CR at its end, which is no byte of its last field.
pub(crate) fn without_return(line: &[u8]) -> &[u8]
    ensures { fields_of result.now ≡ line_fields line.now }
{
    if line.ends_with(b"\r") {
        &line[..line.len() - 1]
    } else {
        line
    }
}

/// The word that the line begins with.
pub(crate) fn word_of(line: &[u8]) -> &[u8]
    ensures { result.now ≡ word_of (line_fields line.now) }
{
    match first_field(without_return(line)) {
        Some((word, _)) => word,
        None => b"",
    }
}

/// The form of the lines of a script that begin with the word, and their rules.
pub(crate) fn rule_of(word: &[u8]) -> &'static [u8]
    ensures { result.now ≡ line_rule word.now }
{
    if word == b"keys".as_slice() {
        refusals::KEYS_RULE
    } else if word == b"key".as_slice() {
        refusals::KEY_RULE
    } else if word == b"seed".as_slice() {
        refusals::SEED_RULE
    } else if word == b"loss".as_slice() {
        refusals::LOSS_RULE
    } else if word == b"repeat".as_slice() {
        refusals::REPEAT_RULE
    } else if word == b"order".as_slice() {
        refusals::ORDER_RULE
    } else if word == b"decline".as_slice() {
        refusals::DECLINE_RULE
    } else if word == b"value".as_slice() {
        refusals::VALUE_RULE
    } else {
        refusals::OTHER_RULE
    }
}

/// What the lines of a script name that begin with the word.
pub(crate) fn names_of(word: &[u8]) -> &'static [u8]
    ensures { result.now ≡ naming_words word.now }
{
    if word == b"order".as_slice() {
        refusals::ORDER_NAMES
    } else if word == b"value".as_slice() {
        refusals::VALUE_NAMES
    } else {
        refusals::OTHER_NAMES
    }
}
