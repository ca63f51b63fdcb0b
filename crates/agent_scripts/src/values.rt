ghost use Rattle.std.specs.Prelude.{◌≡◌, ◌<◌, ◌≤◌, ◌==◌, length, map};
ghost use Rattle.std.specs.List.{All, filter, list_any};
ghost use Rattle.bspl_types.specs.Limits.{carried_limit};
ghost use Rattle.agent_scripts.specs.Rules.{RuleFits};
ghost use Rattle.bspl_types.specs.Choice.{is_chosen};
ghost use Rattle.agent_scripts.specs.Script.{rule_of, value_at, given_values};

use super::rules::ValueRule;
use super::statement::Rule;
use bspl_types::{Adornment, Carried, Expanded, Value, Values};

/// The values that the message gives at the workload number.
pub fn values_of(x: &Expanded, rules: &[ValueRule], message: u32, n: u64) -> Values
    requires known { message < length x.now.messages }
    requires small { n ≤ 10000 }
    requires fits { All (λ r. RuleFits n r.rule) rules.now }
    ensures { result ≡ given_values x.now rules.now message n }
{
    let carried = x.messages.at(message as usize).carried.as_slice();
    chosen_values(x.keys.as_slice(), carried, rules, message, n)
}

/// The values of those of the parameters that are adorned `out` and are no keys.
fn chosen_values(
    keys: &[u32],
    carried: &[Carried],
    rules: &[ValueRule],
    message: u32,
    n: u64,
) -> Values
    requires few { length carried.now ≤ carried_limit }
    requires small { n ≤ 10000 }
    requires fits { All (λ r. RuleFits n r.rule) rules.now }
    ensures { result ≡ map (λ c. value_at (rule_of rules.now message c.param) n)
        (filter (is_chosen keys.now) carried.now) }
{
    let mut values = Values::new();
    for c in carried {
        if is_chosen(keys, *c) {
            let rule = rule_of(rules, message, c.param, n);
            values.push(value_at(rule, n));
        }
    }
    values
}

/// Whether the parameter is adorned `out` and is no key.
fn is_chosen(keys: &[u32], c: Carried) -> bool
    ensures { result ≡ is_chosen keys.now c }
{
    matches!(c.adornment, Adornment::Out) && !is_key(keys, c.param)
}

/// Whether the parameter is a key.
fn is_key(keys: &[u32], param: u32) -> bool
    ensures { result ≡ list_any (λ k. k == param) keys.now }
{
    keys.iter().any(|key| *key == param)
}

/// The rule of the parameter's value, which fits 64 bits at the number.
fn rule_of(rules: &[ValueRule], message: u32, param: u32, n: u64) -> Rule
    requires small { n ≤ 10000 }
    requires fits { All (λ r. RuleFits n r.rule) rules.now }
    ensures rule { result ≡ rule_of rules.now message param }
    ensures fits { RuleFits n result }
{
    for r in rules {
        if r.message == message && r.param == param {
            return r.rule;
        }
    }
    Rule::Linear(100, u64::from(message) + 1)
}

/// The value that the rule gives at the number.
fn value_at(rule: Rule, n: u64) -> Value
    requires { RuleFits n rule }
    ensures { result ≡ value_at rule n }
{
    match rule {
        Rule::Linear(factor, offset) => Value::Number(factor * n + offset),
        Rule::Fixed(text) => Value::Text(text),
    }
}
