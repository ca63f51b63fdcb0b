ghost use Rattle.std.specs.Prelude.{◌≡◌, ◌+◌, ◌≤◌, length, IfSome};
ghost use Rattle.bspl_parser.specs.Tokens.{is_blank_byte};
ghost use Rattle.protocol_rules.specs.RuleLine.{blanks_len, body_start, is_rule_line};

/// What begins a rule, after blanks.
const MARK: &[u8] = b"//?";

/// How far in the line what follows the mark begins, if the line is that of a rule.
pub(crate) fn body_start(line: &[u8]) -> Option<usize>
    ensures start { result ≡ body_start line.now }
    ensures within { IfSome result (λ start. start ≤ length line.now) }
{
    let indent = blanks_len(line);
    if line[indent..].starts_with(MARK) {
        Some(indent + MARK.len())
    } else {
        None
    }
}

/// How many blanks the bytes begin with.
pub(crate) fn blanks_len(bytes: &[u8]) -> usize
    ensures len { result ≡ blanks_len bytes.now }
    ensures within { result ≤ length bytes.now }
{
    for (index, byte) in bytes.iter().enumerate() {
        if !is_blank_byte(*byte) {
            return index;
        }
    }
    bytes.len()
}

/// Whether the byte is a space, a tab, a LF or a CR.
fn is_blank_byte(byte: u8) -> bool
    ensures { result ≡ is_blank_byte byte }
{
    matches!(byte, b' ' | b'\t' | b'\n' | b'\r')
}
