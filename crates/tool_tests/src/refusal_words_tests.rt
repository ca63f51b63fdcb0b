use answer_words::refusal_text;
use std::alloc::Global;
use tool_input::{Code, Field, INPUT_LIMIT, InputRefusal, Part, Rejection, input_rejection};

/// A refusal of an input at a number, and its words.
#[derive(Clone, Copy)]
struct Row {
    input: &'static [u8],
    code: Code,
    number: u64,
    words: &'static [u8],
}

/// Refusals of parts, and of a text.
const ROWS: [Row; 3] = [
    Row {
        input: b"P { }\n%% agents\nkeys 1\nbogus 3\n",
        code: Code::S(1),
        number: 2,
        words: b"refused S1 2\nline 4, column 1\n  bogus 3\n  ^\n\
What is wrong: this line has no form of a script, or breaks one of its rules.\n\
What to do: begin a line with keys, key, seed, loss, repeat, order, decline or value.\n",
    },
    Row {
        input: b"P { }\n%% log\nlog 3 safety\n",
        code: Code::L(1),
        number: 1,
        words: b"refused L1 1\nline 3, column 1\n  log 3 safety\n  ^\n\
What is wrong: a log has no such line there, or it ends too early.\n\
What to do: for `check` begin with `log 1 safety` or `log 1 liveness`, for `check-dead` with \
`log 1 dead MESSAGE` and a message as `bspl expand` prints it, and end each line with LF alone.\n",
    },
    Row {
        input: b"P P { roles A parameters out x }",
        code: Code::E(2),
        number: 2,
        words: b"refused E2 2\nline 1, column 3\n  P P { roles A parameters out x }\n    ^\n\
What is wrong: no protocol has this there, or the text ends too early.\n\
Here may stand: {\n\
What to do: write one of these, or mend what is before the mark: a comma may be missing there.\n",
    },
];

/// The words for a part line that is nearly there.
const PART_WORDS: &[u8] = b"refused P1 agents\n\
What is wrong: the command needs the part line `%% agents`, and it is not there, or another part \
comes first.\n\
The nearest line: line 2, column 1\n  %% agent\n  ^\n\
What to do: write exactly that, alone in its line, end the line above it, and take any other part \
above it away.\n";

/// The words for an input that is too long.
const LONG_WORDS: &[u8] = b"refused P2 536870912\n\
What is wrong: the input has more bytes than may be read.\n\
What to do: give a shorter input.\n";

/// Whether the words of the rejection of the input are these.
fn has_words(alloc: Global, input: &[u8], rejection: &Rejection, words: &[u8]) -> bool {
    refusal_text(alloc, input, rejection)
        .ok()
        .is_some_and(|text| text.as_slice() == words)
}

/// Whether the row is answered as is wanted.
fn is_explained(alloc: Global, row: &Row) -> bool {
    let rejection = Rejection::with_one(row.code, Field::Number(row.number));
    has_words(alloc, row.input, &rejection, row.words)
}

/// Each place is in the whole input, with the sentences of its code.
#[test]
fn explains_refusals(rt: HostRuntime) {
    for row in &ROWS {
        assert!(rt; is_explained(rt.alloc(), row));
    }
    let part = input_rejection(InputRefusal::NoPart { part: Part::Agents });
    assert!(rt; has_words(rt.alloc(), b"P { }\n%% agent\n", &part, PART_WORDS));
    let long = input_rejection(InputRefusal::TooLong { limit: INPUT_LIMIT });
    assert!(rt; has_words(rt.alloc(), b"", &long, LONG_WORDS));
}
