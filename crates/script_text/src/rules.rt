ghost use Rattle.std.specs.Prelude.{◌≡◌, [], ◌∷◌, map, IfOk, MatchOption};
ghost use Rattle.std.specs.List.{All, flat_map};
ghost use Rattle.agent_scripts.specs.StatedScript.{declined_in, rule_in};
ghost use Rattle.agent_scripts.specs.ScriptText.{statements_of};
ghost use Rattle.script_text.specs.Reading.{HasNumbers};

use agent_scripts::{Declined, Stated, Statement, ValueRule};
use bspl_types::{NoMemory, Seq};
use std::alloc::Global;

/// Which messages are declined, at the multiples of which number.
pub(crate) fn declines_of(alloc: Global, stated: &[Stated]) -> Result<Seq<Declined>, NoMemory>
    requires { All HasNumbers (statements_of stated.now) }
    ensures { IfOk result (λ declines. map (λ d. (d.message, d.every)) declines
        ≡ flat_map declined_in (statements_of stated.now)) }
{
    let mut declines = Seq::new(alloc);
    for s in stated {
        if let Some(declined) = declined_in(&s.statement) {
            declines.push(declined)?;
        }
    }
    Ok(declines)
}

/// What the statement declines. A message that is declined always is so at the multiples of 1.
fn declined_in(statement: &Statement) -> Option<Declined>
    requires { HasNumbers statement.now }
    ensures { MatchOption result (declined_in statement.now ≡ [])
        (λ d. declined_in statement.now ≡ (d.message, d.every) ∷ []) }
{
    match statement {
        Statement::Decline(message, None) => Some(Declined {
            message: *message,
            every: 1,
        }),
        Statement::Decline(message, Some(every)) => Some(Declined {
            message: *message,
            every: *every,
        }),
        _ => None,
    }
}

/// The rules of values.
pub(crate) fn rules_of(alloc: Global, stated: &[Stated]) -> Result<Seq<ValueRule>, NoMemory>
    ensures { IfOk result (λ rules. rules ≡ flat_map rule_in (statements_of stated.now)) }
{
    let mut rules = Seq::new(alloc);
    for s in stated {
        if let Statement::Bind(message, param, rule) = &s.statement {
            rules.push(ValueRule {
                message: *message,
                param: *param,
                rule: *rule,
            })?;
        }
    }
    Ok(rules)
}
