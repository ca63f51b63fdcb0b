ghost use Rattle.std.specs.Prelude.{◌≤◌, length};

use question_text::{QuestionFault, read_question, write_spelling};
use std::alloc::Global;
use std::test::Fail;

/// Whether the text is refused for that reason.
fn is_refused(alloc: Global, text: &[u8], wanted: QuestionFault) -> bool
    requires { length text.now ≤ 4294967295 }
{
    match read_question(alloc, text) {
        Ok(_) => false,
        Err(fault) => fault == wanted,
    }
}

/// Whether the text is a question with that spelling.
fn is_spelled(alloc: Global, text: &[u8], wanted: &[u8]) -> bool
    requires { length text.now ≤ 4294967295 }
{
    match read_question(alloc, text) {
        Ok(tree) => match write_spelling(alloc, &tree) {
            Ok(spelling) => spelling.as_slice() == wanted,
            Err(_) => false,
        },
        Err(_) => false,
    }
}

#[test]
fn questions_are_refused_at_their_fault(rt: HostRuntime) -> Result<(), Fail> {
    let alloc = rt.alloc();
    assert!(rt; is_refused(alloc, b"sent ping; rest", QuestionFault::Byte(9)));
    assert!(rt; is_refused(alloc, b"sent", QuestionFault::Syntax(4)));
    assert!(rt; is_refused(alloc, b"sent in", QuestionFault::Syntax(5)));
    assert!(rt; is_refused(alloc, b"rest rest", QuestionFault::Syntax(5)));
    assert!(rt; is_refused(alloc, b"sent ping before rest", QuestionFault::Syntax(17)));
    assert!(rt; is_refused(alloc, b"( sent ping", QuestionFault::Syntax(11)));
    assert!(rt; is_refused(alloc, b"", QuestionFault::Syntax(0)));
    assert!(rt; is_refused(alloc, b"sent a )", QuestionFault::Syntax(7)));
    assert!(rt; is_refused(alloc, b"not", QuestionFault::Syntax(3)));
    assert!(rt;
        is_refused(
            alloc,
            b"sent a before sent b after sent c",
            QuestionFault::Syntax(21)
        )
    );
    assert!(rt; is_refused(alloc, b"can a but b", QuestionFault::Syntax(6)));
    assert!(rt; is_refused(alloc, b"sent a sent b", QuestionFault::Syntax(7)));
    assert!(rt; is_refused(alloc, b"sent a and or", QuestionFault::Syntax(11)));
    Ok(())
}

#[test]
fn questions_are_spelled_with_one_space(rt: HostRuntime) -> Result<(), Fail> {
    let alloc = rt.alloc();
    assert!(rt; is_spelled(alloc, b"sent and", b"sent and"));
    assert!(rt;
        is_spelled(
            alloc,
            b"sent before before\n received   not // end",
            b"sent before before received not"
        )
    );
    assert!(rt;
        is_spelled(
            alloc,
            b"rest but but but and and not(knows A B or can not)",
            b"rest but but but and and not ( knows A B or can not )"
        )
    );
    assert!(rt;
        is_spelled(
            alloc,
            b"not not sent a or sent b and sent c or bound d after received e",
            b"not not sent a or sent b and sent c or bound d after received e"
        )
    );
    Ok(())
}
