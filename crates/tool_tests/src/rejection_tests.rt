use bspl_types::{Bytes, Refusal, What};
use std::alloc::Global;
use tool_input::{InputRefusal, Part, Rejection, input_rejection, rejection_line, text_rejection};

/// The limit on the bytes of an input.
const LIMIT: u64 = 536_870_912;

/// No text is as long.
const LONGEST: Refusal = Refusal::Limit {
    what: What::Text,
    count: u64::MAX,
};

/// The line of the rejection.
fn line_of(alloc: Global, rejection: Option<Rejection>) -> Option<Bytes> {
    rejection_line(alloc, &rejection?).ok()
}

/// Whether the line of the rejection is this one.
fn has_line(alloc: Global, rejection: Option<Rejection>, wanted: &[u8]) -> bool {
    line_of(alloc, rejection).is_some_and(|line| line.as_slice() == wanted)
}

/// Refusals that no command line and no text of a test gives.
#[test]
fn prints_what_an_input_lacks(rt: HostRuntime) {
    let none = input_rejection(InputRefusal::NoPart { part: Part::Agents });
    assert!(rt; has_line(rt.alloc(), Some(none), b"refused P1 agents\n"));
    let long = input_rejection(InputRefusal::TooLong { limit: LIMIT });
    assert!(rt; has_line(rt.alloc(), Some(long), b"refused P2 536870912\n"));
    let longest = text_rejection(LONGEST);
    assert!(rt;
        has_line(
            rt.alloc(),
            longest,
            b"refused E9 text 18446744073709551615\n"
        )
    );
}
