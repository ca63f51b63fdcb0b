ghost use Rattle.std.specs.Prelude.{◌≡◌, ◌<◌, ◌≤◌, [], ◌∷◌, length, IfSome, MatchOption};
ghost use Rattle.std.specs.List.{position_or_len};
ghost use Rattle.agent_scripts.specs.Lines.{script_lines, without_return};
ghost use Rattle.agent_scripts.specs.ScriptText.{is_passed_over};
ghost use Rattle.script_text.specs.inner.LineEnd.{is_line_end};
ghost use Rattle.text_lines.specs.Fields.{fields_of};

use text_lines::first_field;

/// The first line of a text without its end, and the text after it, if the line has an end.
pub(crate) fn first_line(text: &[u8]) -> (&[u8], Option<&[u8]>)
    ensures lines { MatchOption result.1 (script_lines text.now ≡ result.0.now ∷ [])
        (λ after. script_lines text.now ≡ result.0.now ∷ script_lines after.now) }
    ensures shorter { IfSome result.1 (λ after. length after.now < length text.now) }
{
    let end = line_len(text);
    if end == text.len() {
        return (text, None);
    }
    (without_return(&text[..end]), Some(&text[end + 1..]))
}

/// Whether the line has no fields, or is a comment.
pub(crate) fn is_passed_over(line: &[u8]) -> bool
    ensures { result ≡ is_passed_over (fields_of line.now) }
{
    match first_field(line) {
        None => true,
        Some((first, _rest)) => first.starts_with(b"//"),
    }
}

/// How many bytes come before the first LF.
fn line_len(text: &[u8]) -> usize
    ensures len { result ≡ position_or_len is_line_end text.now }
    ensures within { result ≤ length text.now }
{
    for (index, byte) in text.iter().enumerate() {
        if *byte == b'\n' {
            return index;
        }
    }
    text.len()
}

/// The line without a CR at its end.
fn without_return(line: &[u8]) -> &[u8]
    ensures { result.now ≡ without_return line.now }
{
    if !line.is_empty() && line[line.len() - 1] == b'\r' {
        return &line[..line.len() - 1];
    }
    line
}
