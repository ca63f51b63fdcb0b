use super::args::args_of;
use super::journal_place::Place;
use super::role_rows::{sink, source};
use list_base::{Bytes, NoMemory};
use live_role::{RoleEnding, bspl_role};
use program_frame::Ending;
use std::alloc::Global;
use std::test::Fail;
use tool_input::Status;

/// How a role that was served to the end of its input ends.
const SERVED: RoleEnding = RoleEnding::Ended(Ending::Answered(Status::Done));

const HEAD: &[u8] = b"Ping { roles A, B parameters out ID key A -> B: ping[out ID] }\n%% wire\n";

const LINE: &[u8] = br#"{"emit":{"key":["1"],"message":"ping","outs":[]}}"#;

/// A line with so many blanks after the request.
fn push_line(text: &mut Bytes, blanks: usize) -> Result<(), NoMemory> {
    text.append(LINE)?;
    for _ in 0..blanks {
        text.push(b' ')?;
    }
    text.push(b'\n')
}

/// Whether the bytes are answered with the output, read in pieces of this size.
fn is_output(alloc: Global, bytes: &[u8], piece: usize, output: &[u8]) -> Result<bool, Fail> {
    let args = args_of(alloc, "Ping A")?;
    let mut source = source(alloc, bytes, piece, 0)?;
    let mut sink = sink(alloc, 65_536, 0)?;
    let end = bspl_role(alloc, args.as_slice(), &Place::NEW, &mut source, &mut sink);
    Ok(end.ending == SERVED && sink.written() == output)
}

/// A line of 65,537 bytes is refused, and one of 65,536 is read; so it is in pieces.
#[test]
fn long_lines_are_refused(rt: HostRuntime) -> Result<(), Fail> {
    let mut text = Bytes::from_slice(rt.alloc(), HEAD)?;
    push_line(&mut text, 65_537 - LINE.len())?;
    push_line(&mut text, 65_536 - LINE.len())?;
    let output = br#"{"refused":"F1"}
{"sent":{"message":"ping","number":0,"stamp":1,"values":{"ID":"1"}}}
"#;
    for piece in [100, 65_536] {
        assert!(rt; is_output(rt.alloc(), text.as_slice(), piece, output)?);
    }
    Ok(())
}

/// A role without a journal takes more keys than `serve` does: no key is refused after 10,000.
#[test]
fn keys_have_no_small_limit(rt: HostRuntime) -> Result<(), Fail> {
    let alloc = rt.alloc();
    let args = args_of(alloc, "Ping A")?;
    let mut text = Bytes::from_slice(alloc, HEAD)?;
    for key in 1..=10_001_u32 {
        text.append(br#"{"emit":{"key":[""#)?;
        text.append(key.to_string(alloc)?.as_bytes())?;
        text.append(br#""],"message":"ping","outs":[]}}"#)?;
        text.push(b'\n')?;
    }
    push_line(&mut text, 0)?;
    let mut source = source(alloc, text.as_slice(), 65_536, 0)?;
    let mut sink = sink(alloc, 65_536, 0)?;
    let end = bspl_role(alloc, args.as_slice(), &Place::NEW, &mut source, &mut sink);
    assert_eq!(rt; end.ending, SERVED);
    let last = br#"
{"sent":{"message":"ping","number":9999,"stamp":10000,"values":{"ID":"10000"}}}
{"sent":{"message":"ping","number":10000,"stamp":10001,"values":{"ID":"10001"}}}
{"blocked":"bound","kept":"1","param":"ID"}
"#;
    assert!(rt; sink.written().ends_with(last));
    Ok(())
}
