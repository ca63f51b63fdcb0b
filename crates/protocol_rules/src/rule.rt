ghost use Rattle.std.specs.Prelude.{◌≡◌, ◌+◌, ◌≤◌, length, IfErr, IfOk};
ghost use Rattle.protocol_rules.specs.Rule.{StatesRule, IsRuleFault, fault_at};
ghost use Rattle.protocol_rules.specs.Rule.{letters_len, sense_named};
ghost use Rattle.protocol_rules.specs.inner.FaultOffset.{fault_offset};

use super::fault::RuleFault;
use super::rule_line::blanks_len;
use question_text::{QuestionFault, Tree, read_question};
use std::alloc::Global;

/// Whether what is asked must never be, or may be.
#[derive(Clone, Copy, Debug, PartialEq, Eq)]
pub enum Sense {
    /// It is impossible.
    Never,
    /// It is possible.
    Some,
}

/// A rule of a protocol.
#[derive(Drop)]
pub struct Rule {
    pub sense: Sense,
    pub question: Tree,
}

/// The rule that follows a mark, which begins at the offset in the text.
pub(crate) fn read_rule(alloc: Global, body: &[u8], offset: u64) -> Result<Rule, RuleFault>
    requires { offset + length body.now ≤ 4294967295 }
    ensures rule { IfOk result (StatesRule (record { offset = offset; text = body.now })) }
    ensures fault { IfErr result (IsRuleFault (record { offset = offset; text = body.now })) }
{
    let blanks = blanks_len(body);
    let words = &body[blanks..];
    let letters = letters_len(words);
    let Some(sense) = sense_named(&words[..letters]) else {
        return Err(RuleFault::Syntax(offset + blanks as u64));
    };
    let start = offset + blanks as u64 + letters as u64;
    match read_question(alloc, &words[letters..]) {
        Ok(question) => Ok(Rule { sense, question }),
        Err(fault) => Err(fault_at(start, fault)),
    }
}

/// How many letters the bytes begin with.
fn letters_len(bytes: &[u8]) -> usize
    ensures len { result ≡ letters_len bytes.now }
    ensures within { result ≤ length bytes.now }
{
    for (index, byte) in bytes.iter().enumerate() {
        if !byte.is_ascii_alphabetic() {
            return index;
        }
    }
    bytes.len()
}

/// The sense of the word.
fn sense_named(word: &[u8]) -> Option<Sense>
    ensures { result ≡ sense_named word.now }
{
    if word == b"never".as_slice() {
        Some(Sense::Never)
    } else if word == b"some".as_slice() {
        Some(Sense::Some)
    } else {
        None
    }
}

/// The fault of a question that begins at that offset in the text.
fn fault_at(start: u64, fault: QuestionFault) -> RuleFault
    requires { start + fault_offset fault ≤ 4294967295 }
    ensures { result ≡ fault_at start fault }
{
    match fault {
        QuestionFault::Byte(offset) => RuleFault::Byte(start + offset),
        QuestionFault::TooLong(count) => RuleFault::TooLong {
            offset: start,
            count,
        },
        QuestionFault::Syntax(offset) => RuleFault::Syntax(start + offset),
        QuestionFault::NoMemory => RuleFault::NoMemory,
    }
}
