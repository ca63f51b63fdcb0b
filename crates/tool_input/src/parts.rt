ghost use Rattle.std.specs.Prelude.{◌≡◌, ◌≤◌, ◌||◌, length, None, Some, IfSome, MatchOption};
ghost use Rattle.std.specs.Str.{bytes_eq};
ghost use Rattle.tool_input.specs.Parts.{all_parts, begins_part, first_part, is_part_line};
ghost use Rattle.tool_input.specs.Parts.{part_begun, part_name, protocol_text};

use text_lines::split_once;

/// A part of an input after its protocol text.
#[derive(Clone, Copy, Debug, PartialEq, Eq)]
pub enum Part {
    /// The agents' scripts.
    Agents,
    /// A refutation log.
    Log,
    /// A run.
    Run,
    /// A history for each role.
    Histories,
    /// Lines for a role.
    Wire,
}

impl Part {
    /// The name in its part line.
    pub fn name(self) -> &'static [u8]
        ensures { result.now ≡ part_name self }
    {
        match self {
            Part::Agents => b"agents",
            Part::Log => b"log",
            Part::Run => b"run",
            Part::Histories => b"histories",
            Part::Wire => b"wire",
        }
    }
}

/// The bytes before the first part line, and the whole input if there is none. A part line may lack
/// its LF at the end of the input.
pub fn protocol_text(input: &[u8]) -> &[u8]
    ensures { result.now ≡ protocol_text input.now }
{
    let mut start = 0;
    for line in input.split(|b| *b == b'\n') {
        if is_part_line(line) {
            return &input[..start];
        }
        start += line.len() + 1;
    }
    input
}

/// The part that the first part line begins, and the bytes after that line.
pub fn first_part(input: &[u8]) -> Option<(Part, &[u8])>
    ensures within { IfSome result (λ found. length found.1.now ≤ length input.now) }
    ensures exact { MatchOption result
        (first_part input.now ≡ None)
        (λ found. first_part input.now ≡ Some (found.0, found.1.now)) }
{
    let mut rest = input;
    loop {
        let (line, after) = split_once(rest, b'\n');
        if let Some(part) = part_begun(line) {
            return match after {
                Some(bytes) => Some((part, bytes)),
                None => Some((part, &[])),
            };
        }
        let Some(bytes) = after else {
            return None;
        };
        rest = bytes;
    }
}

/// The part that the line begins, if it begins one.
fn part_begun(line: &[u8]) -> Option<Part>
    ensures { result ≡ part_begun line.now all_parts }
{
    if begins_part(line, Part::Agents) {
        Some(Part::Agents)
    } else if begins_part(line, Part::Log) {
        Some(Part::Log)
    } else if begins_part(line, Part::Run) {
        Some(Part::Run)
    } else if begins_part(line, Part::Histories) {
        Some(Part::Histories)
    } else if begins_part(line, Part::Wire) {
        Some(Part::Wire)
    } else {
        None
    }
}

/// Whether the line begins some part.
fn is_part_line(line: &[u8]) -> bool
    ensures { result ≡ is_part_line line.now }
{
    begins_part(line, Part::Agents)
        || begins_part(line, Part::Log)
        || begins_part(line, Part::Run)
        || begins_part(line, Part::Histories)
        || begins_part(line, Part::Wire)
}

/// Whether the line begins the part.
fn begins_part(line: &[u8], part: Part) -> bool
    ensures { result ≡ begins_part line.now part }
{
    match part {
        Part::Agents => is_either(line, b"%% agents", b"%% agents\r"),
        Part::Log => is_either(line, b"%% log", b"%% log\r"),
        Part::Run => is_either(line, b"%% run", b"%% run\r"),
        Part::Histories => is_either(line, b"%% histories", b"%% histories\r"),
        Part::Wire => is_either(line, b"%% wire", b"%% wire\r"),
    }
}

/// Whether the line is one of the two.
fn is_either(line: &[u8], one: &[u8], other: &[u8]) -> bool
    ensures { result ≡ (bytes_eq line.now one.now || bytes_eq line.now other.now) }
{
    line == one || line == other
}
