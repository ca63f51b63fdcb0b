use protocol_rules::{Rule, RuleFault, Sense, read_rules};
use question_text::write_spelling;
use std::alloc::Global;
use std::test::Fail;

/// Two protocols, of which the first has two rules and a line that looks like one before its brace.
const TEXT: &[u8] = b"// a text\n//? never rest\nPing {\n\
    \t//? never sent ping and(not received ping)  // it arrives\n\
    roles A, B //? some rest\nparameters out ID key\nA -> B: ping[out ID]\n\
    //?some rest but ping\r\n}\n//? never rest\nPong {\n\
    roles A, B\nparameters out ID key\nB -> A: pong[out ID]\n//? never can\n}\n//? never";

/// Whether the rule has the sense, and its question is spelled so.
fn says(alloc: Global, rule: &Rule, sense: Sense, spelling: &[u8]) -> Result<bool, Fail> {
    let text = write_spelling(alloc, &rule.question)?;
    Ok(rule.sense == sense && text.as_slice() == spelling)
}

#[test]
fn rules_of_a_protocol_are_in_its_braces(rt: HostRuntime) -> Result<(), Fail> {
    let rules = read_rules(rt.alloc(), TEXT, b"Ping")
        .ok()
        .ok_or("a rule is refused")?;
    assert_eq!(rt; rules.len(), 2);
    let (first, second) = (rules.at(0), rules.at(1));
    let never = b"sent ping and ( not received ping )".as_slice();
    assert!(rt; says(rt.alloc(), first, Sense::Never, never)?);
    assert!(rt; says(rt.alloc(), second, Sense::Some, b"rest but ping")?);
    Ok(())
}

#[test]
fn faults_of_rules_have_offsets_in_the_text(rt: HostRuntime) {
    let alloc = rt.alloc();
    let fault = |text: &[u8]| read_rules(alloc, text, b"P").err();
    assert_eq!(rt;
        read_rules(alloc, TEXT, b"Pong").err(),
        Some(RuleFault::Syntax(273))
    );
    assert_eq!(rt;
        fault(b"P {\n  //? nver rest\n}"),
        Some(RuleFault::Syntax(10))
    );
    assert_eq!(rt;
        fault(b"P {\n//? never rest;\n}"),
        Some(RuleFault::Byte(18))
    );
    assert_eq!(rt;
        fault(b"P {\n//? some rest rest\n}"),
        Some(RuleFault::Syntax(18))
    );
    assert_eq!(rt; fault(b"P {\n//?\n}"), Some(RuleFault::Syntax(7)));
}
