ghost use Rattle.std.specs.Prelude.{◌≤◌, length, IfErr, IfOk};
ghost use Rattle.std.specs.List.{AllZip};
ghost use Rattle.protocol_rules.specs.Rule.{StatesRule};
ghost use Rattle.protocol_rules.specs.RuleLine.{rule_bodies};
ghost use Rattle.protocol_rules.specs.Rules.{AreRulesOf, IsBadRule};
ghost use Rattle.protocol_rules.specs.inner.FirstFault.{IsFaultAmong};

use super::braces::{Braces, braces_of, is_in_braces};
use super::fault::RuleFault;
use super::rule::{Rule, read_rule};
use super::rule_line::body_start;
use bspl_parser::{TokensError, tokens_of};
use list_base::Seq;
use std::alloc::Global;
use text_lines::split_once;

/// The rules in the braces of the protocol of the name, in order. A rule stands on a line that
/// begins, after blanks, with `//?`; then come `never` or `some` and a question. The first line that
/// begins so and is no rule is refused.
pub fn read_rules(alloc: Global, text: &[u8], name: &[u8]) -> Result<Seq<Rule>, RuleFault>
    ensures rules { IfOk result (AreRulesOf text.now name.now) }
    ensures refused { IfErr result (IsBadRule text.now name.now) }
{
    if text.len() > u32::MAX as usize {
        return Err(RuleFault::NoMemory);
    }
    match tokens_of(alloc, text) {
        Ok(tokens) => {
            let braces = braces_of(alloc, tokens.as_slice(), name)?;
            rules_in(alloc, text, braces.as_slice())
        }
        Err(TokensError::Byte(offset)) => Err(RuleFault::Byte(offset)),
        Err(TokensError::NoMemory) => Err(RuleFault::NoMemory),
    }
}

/// The rules of the text on lines that begin between the braces.
fn rules_in(alloc: Global, text: &[u8], braces: &[Braces]) -> Result<Seq<Rule>, RuleFault>
    requires { length text.now ≤ 4294967295 }
    ensures rules { IfOk result (AllZip StatesRule (rule_bodies braces.now text.now)) }
    ensures refused { IfErr result (IsFaultAmong (rule_bodies braces.now text.now)) }
{
    let mut rules = Seq::new(alloc);
    let mut offset: u64 = 0;
    let mut left = Some(text);
    while let Some(bytes) = left {
        let (line, rest) = split_once(bytes, b'\n');
        if is_in_braces(braces, offset) {
            if let Some(start) = body_start(line) {
                let rule = read_rule(alloc, &line[start..], offset + start as u64)?;
                rules.push(rule)?;
            }
        }
        offset += line.len() as u64 + 1;
        left = rest;
    }
    Ok(rules)
}
