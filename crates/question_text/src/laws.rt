//! Laws of questions as texts: functions without effect, whose contracts are facts about the
//! definitions. A caller gains the facts by the call.

ghost use Rattle.question_text.specs.Laws.{HasOneFault, HasOneTree, ReadTextHasNoFault};
ghost use Rattle.question_text.specs.Laws.{SpellingReadsBack};

use bspl_parser::{spaced_tokens, tokens_once};

/// A law: a text has one tree at most, one fault at most, and not both.
pub fn one_question()
    ensures tree { HasOneTree }
    ensures fault { HasOneFault }
    ensures exclusive { ReadTextHasNoFault }
{
    // law: a text has one list of tokens, or one bad byte
    tokens_once();
}

/// A law: the spelling of a question is a text of the same question.
pub fn spelling_reads_back()
    ensures { SpellingReadsBack }
{
    // law: words with one space between each two are read as tokens of these words
    spaced_tokens();
}
