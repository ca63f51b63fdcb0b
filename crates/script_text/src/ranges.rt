ghost use Rattle.std.specs.Prelude.{◌≡◌, ◌↔◌, length, IsTrue, MatchOption};
ghost use Rattle.std.specs.List.{All};
ghost use Rattle.bspl_types.specs.declared.expanded.Expanded.{Expanded};
ghost use Rattle.agent_scripts.specs.StatedScript.{keys_given};
ghost use Rattle.agent_scripts.specs.Refusal.{IsFirstOutOfRange};
ghost use Rattle.agent_scripts.specs.Rules.{RuleFits, ValueFits};
ghost use Rattle.agent_scripts.specs.ScriptText.{HasValueInRange, statements_of};

use agent_scripts::{Rule, Stated, Statement};

/// The line of the first statement whose value is out of range, if there are as many keys.
pub(crate) fn first_out_of_range(stated: &[Stated], count: u64) -> Option<u64>
    ensures { (x : Expanded) →
        count ≡ length (keys_given (length x.keys) (statements_of stated.now)) →
        MatchOption result (All (HasValueInRange x stated.now) stated.now)
        (IsFirstOutOfRange x stated.now) }
{
    for s in stated {
        if !value_fits(&s.statement, count) {
            return Some(s.line);
        }
    }
    None
}

/// Whether the statement's value fits 64 bits at each number up to the last.
fn value_fits(statement: &Statement, last: u64) -> bool
    ensures { IsTrue result ↔ ValueFits last statement.now }
{
    match statement {
        Statement::Bind(_, _, rule) => rule_fits(rule, last),
        _ => true,
    }
}

/// Whether the rule's value does.
fn rule_fits(rule: &Rule, last: u64) -> bool
    ensures { IsTrue result ↔ RuleFits last rule.now }
{
    match rule {
        Rule::Linear(factor, offset) => match factor.checked_mul(last) {
            Some(product) => product.checked_add(*offset).is_some(),
            None => false,
        },
        Rule::Fixed(_) => true,
    }
}
