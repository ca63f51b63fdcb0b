use super::role_rows::{Row, is_answered};
use live_role::RoleEnding;
use program_frame::Ending;
use std::test::Fail;
use tool_input::Status;

/// A role that is served to the end of its input.
const SERVED: Row = Row {
    args: "Ping A",
    input: b"",
    read_fault: 0,
    write_fault: 0,
    ending: RoleEnding::Ended(Ending::Answered(Status::Done)),
    output: b"",
};

/// Arguments that are invalid: nothing is read.
const MISUSED: Row = Row {
    read_fault: 1,
    ending: RoleEnding::Ended(Ending::Answered(Status::Usage)),
    output: b"usage: bspl_role NAME ROLE [--unchecked] [--journal FILE [--no-sync]]\n",
    ..SERVED
};

/// What is answered to A, and refused.
const TO_A: &[u8] = br#"{"sent":{"message":"ping","number":0,"stamp":1,"values":{"ID":"1"}}}
{"blocked":"bound","kept":"1","param":"ID"}
{"refused":"F1"}
"#;

const ROWS: &[Row] = &[
    // An emission, once more, and an empty line; the last line has no LF.
    Row {
        input: br#"Ping { roles A, B parameters out ID key A -> B: ping[out ID] }
%% wire
{"emit":{"key":["1"],"message":"ping","outs":[]}}
{"emit":{"key":["1"],"message":"ping","outs":[]}}
{"emit":{"key":["2"],"message":"ping","outs":[]}}"#,
        output: TO_A,
        ..SERVED
    },
    // A fresh message, a repeat, no JSON, and what A asks.
    Row {
        args: "Ping B",
        input: br#"Ping { roles A, B parameters out ID key A -> B: ping[out ID] }
%% wire
{"receive":{"message":"ping","number":0,"stamp":1,"values":{"ID":"1"}}}
{"receive":{"message":"ping","number":0,"stamp":1,"values":{"ID":"1"}}}
[1
{"emit":{"key":["1"],"message":"ping","outs":[]}}
"#,
        output: br#"{"receipt":"fresh"}
{"receipt":"repeat"}
{"refused":"F1"}
{"refused":"F2"}
"#,
        ..SERVED
    },
    // CR is a blank, the last of two members of one name counts, and 1.0 is no whole number.
    Row {
        args: "Ping B",
        input: b"Ping { roles A, B parameters out ID key A -> B: ping[out ID] }
%% wire\r
{\"receive\":{\"message\":\"pong\",\"message\":\"ping\",\"number\":0,\"stamp\":1,\"values\":{\"ID\":\"1\"}}}\r
{\"receive\":{\"message\":\"ping\",\"number\":0,\"stamp\":1.0,\"values\":{\"ID\":\"2\"}}}
\n{\"receive\":{\"message\":\"ping\",\"number\":-0,\"stamp\":1,\"values\":{\"ID\":\"2\"}}}
",
        output: br#"{"receipt":"fresh"}
{"refused":"F1"}
{"refused":"F1"}
{"refused":"F1"}
"#,
        ..SERVED
    },
    // F2 comes before F4; F4 leaves the store, and so does each line of no role of the protocol.
    Row {
        args: "Ping B",
        input: br#"Ping { roles A, B parameters out ID key A -> B: ping[out ID] }
%% wire
{"receive":{"message":"ping","number":0,"stamp":18446744073709551615,"values":{"ID":"01"}}}
{"receive":{"message":"ping","number":0,"stamp":18446744073709551615,"values":{"ID":"1"}}}
{"receive":{"message":"ping","number":0,"stamp":18446744073709551614,"values":{"ID":"1"}}}
{"receive":{"message":"ping","number":1,"stamp":1,"values":{"ID":"2"}}}
"#,
        output: br#"{"refused":"F2"}
{"refused":"F4"}
{"receipt":"fresh"}
{"refused":"F4"}
"#,
        ..SERVED
    },
    // Texts are values, and a message with another value differs.
    Row {
        args: "Talk B",
        input: br#"Talk {
  roles A, B
  parameters out ID key, out x, out y
  A -> B: ask[out ID, out x]
  B -> A: tell[in ID, in x, out y]
}
%% wire
{"emit":{"key":["1"],"message":"tell","outs":["2"]}}
{"receive":{"message":"ask","number":0,"stamp":4,"values":{"ID":"1","x":"\"a\\0a\""}}}
{"receive":{"message":"ask","number":0,"stamp":4,"values":{"ID":"1","x":"\"b\""}}}
{"emit":{"key":["1"],"message":"tell","outs":["\"\\22\""]}}
"#,
        output: br#"{"blocked":"missing","param":"ID"}
{"receipt":"fresh"}
{"arrived":"\"b\"","kept":"\"a\\0a\"","param":"x","receipt":"differs"}
{"sent":{"message":"tell","number":1,"stamp":6,"values":{"ID":"1","x":"\"a\\0a\"","y":"\"\\22\""}}}
"#,
        ..SERVED
    },
    // An unsafe protocol is not served, unless it is not judged.
    Row {
        args: "Twin A",
        input: br#"Twin { roles A, B parameters out ID key A -> B: m[out ID] B -> A: n[out ID] }
%% wire
{"emit":{"key":["1"],"message":"m","outs":[]}}
"#,
        ending: RoleEnding::Ended(Ending::Answered(Status::Refuted)),
        output: b"protocol Twin
safety unsafe ID 1 2
run 1
send n ID=1
send m ID=1
end
liveness live
",
        ..SERVED
    },
    Row {
        args: "Twin A --unchecked",
        input: br#"Twin { roles A, B parameters out ID key A -> B: m[out ID] B -> A: n[out ID] }
%% wire
{"emit":{"key":["1"],"message":"m","outs":[]}}
"#,
        output: br#"{"sent":{"message":"m","number":0,"stamp":1,"values":{"ID":"1"}}}
"#,
        ..SERVED
    },
    // The text comes first, then the role; without the line there is no role at all.
    Row {
        args: "Pong C",
        input: b"Ping { roles A, B parameters out ID key A -> B: ping[out ID] }\n%% wire\n",
        ending: RoleEnding::Ended(Ending::Answered(Status::Refused)),
        output: b"refused E3 Pong\n",
        ..SERVED
    },
    Row {
        args: "Ping C",
        input: b"Ping { roles A, B parameters out ID key A -> B: ping[out ID] }\n%% wire\n",
        ending: RoleEnding::Ended(Ending::Answered(Status::Refused)),
        output: b"refused F5\n",
        ..SERVED
    },
    Row {
        input: b"Ping { roles A, B parameters out ID key A -> B: ping[out ID] }\n%% wire",
        ending: RoleEnding::Ended(Ending::Answered(Status::Refused)),
        output: b"refused P1 wire\n",
        ..SERVED
    },
    Row {
        args: "Ping A --checked",
        ..MISUSED
    },
    Row {
        args: "Ping A --no-sync",
        ..MISUSED
    },
    Row {
        args: "Ping A --journal",
        ..MISUSED
    },
    Row {
        args: "Ping A --journal kept --unchecked",
        ..MISUSED
    },
];

/// Calls over pieces of 200 bytes of which one fails. The first piece has two whole lines.
const FAULTS: &[Row] = &[
    // Both are answered before more is read.
    Row {
        input: br#"Ping { roles A, B parameters out ID key A -> B: ping[out ID] }
%% wire
{"emit":{"key":["1"],"message":"ping","outs":[]}}
{"emit":{"key":["1"],"message":"ping","outs":[]}}
{"emit":{"key":["2"],"message":"ping","outs":[]}}
"#,
        read_fault: 2,
        ending: RoleEnding::Ended(Ending::ReadFault),
        output: br#"{"sent":{"message":"ping","number":0,"stamp":1,"values":{"ID":"1"}}}
{"blocked":"bound","kept":"1","param":"ID"}
"#,
        ..SERVED
    },
    Row {
        input: b"Ping { roles A, B parameters out ID key A -> B: ping[out ID] }\n%% wire\n\n",
        write_fault: 1,
        ending: RoleEnding::Ended(Ending::WriteFault),
        ..SERVED
    },
    // The line `%% wire` has not come.
    Row {
        read_fault: 1,
        ending: RoleEnding::Ended(Ending::ReadFault),
        ..SERVED
    },
];

#[test]
fn answers_each_line_over_pieces(rt: HostRuntime) -> Result<(), Fail> {
    for row in ROWS {
        for piece in [1, 4, 4096] {
            assert!(rt; is_answered(rt.alloc(), row, piece)?, "{}", row.args);
        }
    }
    Ok(())
}

#[test]
fn answers_whole_lines_before_a_fault(rt: HostRuntime) -> Result<(), Fail> {
    for row in FAULTS {
        assert!(rt; is_answered(rt.alloc(), row, 200)?, "{}", row.args);
    }
    Ok(())
}
