ghost use Rattle.std.specs.Prelude.{◌≡◌};
ghost use Rattle.answer_words.specs.ByteAdvice.{begins_arrow, begins_beyond_ascii, begins_comment};
ghost use Rattle.answer_words.specs.ByteAdvice.{begins_dash, byte_advice, sign_advice};

use super::wording::refusals;

/// What to do about a byte at which no token begins, by the bytes from there on.
pub(crate) fn byte_advice(bytes: &[u8]) -> &'static [u8]
    ensures { result.now ≡ byte_advice bytes.now }
{
    if begins_comment(bytes) {
        refusals::COMMENT_ADVICE
    } else if bytes.starts_with(b"%") {
        refusals::PART_LINE_ADVICE
    } else if bytes.starts_with(b"\xef\xbb\xbf") {
        refusals::BYTE_ORDER_ADVICE
    } else if begins_arrow(bytes) {
        refusals::ARROW_ADVICE
    } else if begins_dash(bytes) {
        refusals::DASH_ADVICE
    } else {
        sign_advice(bytes)
    }
}

/// What to do about a sign that the language lacks, or what begins no name.
fn sign_advice(bytes: &[u8]) -> &'static [u8]
    ensures { result.now ≡ sign_advice bytes.now }
{
    if bytes.starts_with(b";") {
        refusals::SEMICOLON_ADVICE
    } else if bytes.starts_with(b"=") {
        refusals::EQUALS_ADVICE
    } else if begins_beyond_ascii(bytes) {
        refusals::ASCII_ADVICE
    } else {
        refusals::NAME_ADVICE
    }
}

/// Whether the bytes begin with what others write for a comment.
fn begins_comment(bytes: &[u8]) -> bool
    ensures { result ≡ begins_comment bytes.now }
{
    bytes.starts_with(b"#") || bytes.starts_with(b"/")
}

/// Whether the bytes begin with what others write for an arrow.
fn begins_arrow(bytes: &[u8]) -> bool
    ensures { result ≡ begins_arrow bytes.now }
{
    bytes.starts_with(b"=>")
        || bytes.starts_with(b"-")
        || bytes.starts_with(b"<")
        || bytes.starts_with(b"\xe2\x86")
}

/// Whether the bytes begin with an en dash or an em dash.
fn begins_dash(bytes: &[u8]) -> bool
    ensures { result ≡ begins_dash bytes.now }
{
    bytes.starts_with(b"\xe2\x80\x93") || bytes.starts_with(b"\xe2\x80\x94")
}

/// Whether the first byte is not of ASCII.
fn begins_beyond_ascii(bytes: &[u8]) -> bool
    ensures { result ≡ begins_beyond_ascii bytes.now }
{
    match bytes {
        [] => false,
        [first, ..] => *first >= 128,
    }
}
