use list_base::Seq;
use protocol_rules::Rule;
use questions::Question;

/// The rules of a protocol, and for each of them what it asks.
#[derive(Drop)]
pub struct AskedRules {
    pub rules: Seq<Rule>,
    pub questions: Seq<Question>,
}
