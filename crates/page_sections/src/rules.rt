ghost use Rattle.std.specs.Prelude.{◌≡◌, ◌<◌, ◌≤◌, ◌++◌, length, OnOk};
ghost use Rattle.std.specs.List.{AllZip};
ghost use Rattle.ask_commands.specs.AskedRules.{HaveQuestions, IsQuestionOf};
ghost use Rattle.html.specs.Fragment.{as_html};
ghost use Rattle.page_sections.specs.RulesSection.{AppendsRules, answer_run, rule_sentence};
ghost use Rattle.page_sections.specs.RulesSection.{rule_shown, rule_word};
ghost use Rattle.page_sections.specs.inner.Rules.{AreShown};
ghost use Rattle.question_answer.specs.Answer.{HasFittingEvents};
ghost use Rattle.question_text.specs.Tree.{phrase_of};

use super::verdicts::push_evidence;
use super::wording::{BROKEN, KEPT, RULE, RULES_START, UNDECIDED};
use ask_commands::{AskedRules, is_broken, sense_word};
use bspl_types::Admitted;
use html::{Fragment, fill, push_fragments};
use list_base::{Bytes, NoMemory};
use protocol_rules::{Rule, Sense};
use question_answer::{Answer, QuestionSearch};
use question_text::write_spelling;
use questions::Question;
use run_chart::Finding;
use std::alloc::Global;

/// Appends the section of the rules: of each whether the protocol keeps it, with at most
/// `conflicts` conflicts in its search, and a run if one answers its question with yes. Of no rules
/// there is no section.
pub fn push_rules(
    alloc: Global,
    text: &mut Bytes,
    a: &Admitted,
    asked: &AskedRules,
    conflicts: u32,
) -> Result<(), NoMemory>
    requires questions { HaveQuestions a.now asked.now }
    requires some { 1 ≤ conflicts }
    requires few { conflicts ≤ 1000000 }
    ensures { OnOk result (AppendsRules a.now conflicts asked.now.rules text.old text.new) }
{
    let rules = asked.rules.as_slice();
    if rules.is_empty() {
        Ok(())
    } else {
        push_section(alloc, text, a, rules, asked.questions.as_slice(), conflicts)
    }
}

/// Appends the section of some rules.
fn push_section(
    alloc: Global,
    text: &mut Bytes,
    a: &Admitted,
    rules: &[Rule],
    questions: &[Question],
    conflicts: u32,
) -> Result<(), NoMemory>
    requires rules { 0 < length rules.now }
    requires questions { AllZip (IsQuestionOf a.now) rules.now questions.now }
    requires some { 1 ≤ conflicts }
    requires few { conflicts ≤ 1000000 }
    ensures { OnOk result (AppendsRules a.now conflicts rules.now text.old text.new) }
{
    push_fragments(text, &[Fragment::Tag(RULES_START)])?;
    push_judged(alloc, text, a, rules, questions, conflicts)
}

/// Appends what is shown of each rule.
fn push_judged(
    alloc: Global,
    text: &mut Bytes,
    a: &Admitted,
    rules: &[Rule],
    questions: &[Question],
    conflicts: u32,
) -> Result<(), NoMemory>
    requires questions { AllZip (IsQuestionOf a.now) rules.now questions.now }
    requires some { 1 ≤ conflicts }
    requires few { conflicts ≤ 1000000 }
    ensures { OnOk result (AreShown a.now conflicts rules.now text.old text.new) }
{
    let mut searches = QuestionSearch::new(alloc, a)?;
    searches.prepare(alloc, questions)?;
    for index in 0..rules.len() {
        let answer = searches.answer(alloc, &questions[index], conflicts)?;
        let pushed = push_rule(alloc, text, a, &rules[index], &answer);
        drop(answer);
        pushed?;
    }
    Ok(())
}

/// Appends the rule with what the answer to its question says of it, and the run of the answer.
fn push_rule(
    alloc: Global,
    text: &mut Bytes,
    a: &Admitted,
    rule: &Rule,
    answer: &Answer,
) -> Result<(), NoMemory>
    requires { HasFittingEvents a.now answer.now }
    ensures { OnOk result (text.new ≡ text.old ++ as_html
        (rule_shown a.now rule.now.sense (phrase_of rule.now.question) answer.now)) }
{
    push_sentence(alloc, text, rule, answer)?;
    push_answer_run(alloc, text, a, answer)
}

/// Appends the rule as it is spelled, after the word that the answer gives it.
fn push_sentence(
    alloc: Global,
    text: &mut Bytes,
    rule: &Rule,
    answer: &Answer,
) -> Result<(), NoMemory>
    ensures { OnOk result (text.new ≡ text.old ++ as_html
        (rule_sentence rule.now.sense (phrase_of rule.now.question) answer.now)) }
{
    let spelling = write_spelling(alloc, &rule.question)?;
    fill(
        text,
        RULE,
        &[
            Fragment::Tag(rule_word(rule.sense, answer)),
            Fragment::Tag(sense_word(rule.sense)),
            Fragment::Words(spelling.as_slice()),
        ],
    )
}

/// The word that the answer to its question gives a rule of that sense.
fn rule_word(sense: Sense, answer: &Answer) -> &'static [u8]
    ensures { result.now ≡ rule_word sense answer.now }
{
    match answer {
        Answer::Undecided(_) => UNDECIDED,
        _ => if is_broken(sense, answer) {
            BROKEN
        } else {
            KEPT
        },
    }
}

/// Appends the run of the answer, if it has one.
fn push_answer_run(
    alloc: Global,
    text: &mut Bytes,
    a: &Admitted,
    answer: &Answer,
) -> Result<(), NoMemory>
    requires { HasFittingEvents a.now answer.now }
    ensures { OnOk result (text.new ≡ text.old ++ as_html (answer_run a.now answer.now)) }
{
    match answer {
        Answer::Possible(run) => push_evidence(alloc, text, a, run.as_slice(), Finding::Plain),
        Answer::Impossible(_) | Answer::Undecided(_) => Ok(()),
    }
}
