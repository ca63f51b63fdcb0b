ghost use Rattle.protocol_rules.specs.Laws.{HasOneListOfRules, HasOneRuleFault};
ghost use Rattle.protocol_rules.specs.Laws.{ReadRulesHaveNoFault};

use bspl_parser::tokens_once;
use question_text::one_question;

/// A law: a protocol of a text has one list of rules at most and one fault at most, and not both.
pub fn rules_once()
    ensures rules { HasOneListOfRules }
    ensures fault { HasOneRuleFault }
    ensures exclusive { ReadRulesHaveNoFault }
{
    // law: a text has one list of tokens, or one bad byte
    tokens_once();
    // law: it has one question, or one fault
    one_question();
}
