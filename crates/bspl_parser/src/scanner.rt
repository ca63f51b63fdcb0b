ghost use Rattle.std.specs.Prelude.{◌≡◌, ◌≤◌, ◌<◌, ◌==◌, length, drop, position, IfSome};
ghost use Rattle.bspl_parser.specs.Tokens.{is_blank_byte};
ghost use Rattle.bspl_parser.specs.inner.Scan.{scan_from, rest_from, IsAhead};
ghost use Rattle.bspl_parser.specs.inner.Scanner.{comment_len, gap_len, word_among, word_symbol};
ghost use Rattle.bspl_parser.specs.inner.Scanner.{word_kind, mark_at, first_token};
ghost use Rattle.bspl_parser.specs.inner.SymbolTable.{long_words, short_words};

use super::name_length::name_len;
use super::packed_token::{Kind, PackedToken};
use super::symbol::Symbol;

/// The index of the first LF.
fn line_end(bytes: &[u8]) -> Option<usize>
    ensures index { result ≡ position (λ b. b == 10) bytes.now }
    ensures within { IfSome result (λ index. index < length bytes.now) }
{
    bytes.iter().position(|b| *b == b'\n')
}

/// The length of a comment that the bytes begin with.
fn comment_len(bytes: &[u8]) -> usize
    ensures exact { result ≡ comment_len bytes.now }
    ensures within { result ≤ length bytes.now }
{
    match line_end(bytes) {
        Some(index) => index + 1,
        None => bytes.len(),
    }
}

/// Whether the byte is a space, a tab, a LF or a CR.
fn is_blank_byte(byte: u8) -> bool
    ensures { result ≡ is_blank_byte byte }
{
    matches!(byte, b' ' | b'\t' | b'\n' | b'\r')
}

/// The length of the blank or of the comment that the bytes begin with; 0 if they begin with
/// neither.
#[tactic(auto, unfolding(crate::specs::inner::Scanner::gap_len))]
fn gap_len(bytes: &[u8]) -> usize
    ensures exact { result ≡ gap_len bytes.now }
    ensures within { result ≤ length bytes.now }
{
    match bytes {
        [] => 0,
        [first, ..] if *first > b'/' => 0,
        [b'/', b'/', ..] => comment_len(bytes),
        [first, ..] => usize::from(is_blank_byte(*first)),
    }
}

/// The reserved word of four bytes or more that the text is.
fn long_word(text: &[u8]) -> Option<Symbol>
    ensures { result ≡ word_among long_words text.now }
{
    match text {
        b"roles" => Some(Symbol::Roles),
        b"role" => Some(Symbol::Role),
        b"parameters" => Some(Symbol::Parameters),
        b"parameter" => Some(Symbol::Parameter),
        b"private" => Some(Symbol::Private),
        _ => None,
    }
}

/// The reserved word of two or three bytes that the text is.
fn short_word(text: &[u8]) -> Option<Symbol>
    ensures { result ≡ word_among short_words text.now }
{
    match text {
        b"in" => Some(Symbol::In),
        b"out" => Some(Symbol::Out),
        b"nil" => Some(Symbol::Nil),
        b"any" => Some(Symbol::Any),
        b"opt" => Some(Symbol::Opt),
        b"key" => Some(Symbol::Key),
        _ => None,
    }
}

/// The reserved word that the text is.
#[tactic(auto, using(crate::proofs::ReservedWords::short_is_word, crate::proofs::ReservedWords::long_is_word))]
fn word_symbol(text: &[u8]) -> Option<Symbol>
    ensures { result ≡ word_symbol text.now }
{
    if text.len() < 4 {
        short_word(text)
    } else {
        long_word(text)
    }
}

/// What a token of that text is: a reserved word, or else a name.
fn word_kind(text: &[u8]) -> Kind
    ensures { result ≡ word_kind text.now }
{
    match word_symbol(text) {
        Some(symbol) => Kind::Fixed(symbol),
        None => Kind::Name,
    }
}

/// The mark that the bytes begin with, and its length.
#[tactic(auto, unfolding(crate::specs::inner::Scanner::mark_at))]
fn mark_at(bytes: &[u8]) -> Option<(Symbol, usize)>
    ensures { result ≡ mark_at bytes.now }
{
    match bytes {
        [b'{', ..] => Some((Symbol::OpenBrace, 1)),
        [b'}', ..] => Some((Symbol::CloseBrace, 1)),
        [b'[', ..] => Some((Symbol::OpenBracket, 1)),
        [b']', ..] => Some((Symbol::CloseBracket, 1)),
        [b'(', ..] => Some((Symbol::OpenParen, 1)),
        [b')', ..] => Some((Symbol::CloseParen, 1)),
        [b',', ..] => Some((Symbol::Comma, 1)),
        [b':', ..] => Some((Symbol::Colon, 1)),
        [b'-', b'>', ..] => Some((Symbol::Arrow, 2)),
        [0xE2, 0x86, 0xA6, ..] => Some((Symbol::Arrow, 3)),
        _ => None,
    }
}

/// The longest token that the bytes begin with, and its length.
#[tactic(auto, unfolding(crate::specs::inner::Scanner::first_token))]
fn word_or_mark(bytes: &[u8]) -> Option<(Kind, usize)>
    ensures { result ≡ first_token bytes.now }
{
    let len = name_len(bytes);
    if 0 < len {
        return Some((word_kind(&bytes[..len]), len));
    }
    let (symbol, len) = mark_at(bytes)?;
    Some((Kind::Fixed(symbol), len))
}

/// The same, and its length is within the bytes.
fn first_token(bytes: &[u8]) -> Option<(Kind, usize)>
    ensures exact { result ≡ first_token bytes.now }
    ensures within { IfSome result (λ found. (0 < found.1) × (found.1 ≤ length bytes.now)) }
{
    word_or_mark(bytes)
}

/// The offset after the blanks and comments that begin at the offset.
fn after_gap(text: &[u8], start: usize) -> usize
    requires { start ≤ length text.now }
    ensures same { scan_from text.now result ≡ scan_from text.now start }
    ensures no_gap { gap_len (drop result text.now) ≡ 0 }
    ensures within { result ≤ length text.now }
{
    let mut offset = start;
    'gap: loop {
        let skipped = gap_len(&text[offset..]);
        if skipped == 0 {
            return offset;
        }
        offset += skipped;
    }
}

/// How far a text was scanned.
#[derive(Drop)]
pub struct Ahead {
    /// The token that was scanned last, unless the scan came to its end.
    pub token: Option<PackedToken>,
    /// Where the scan goes on.
    pub offset: usize,
}

/// Scans from the offset to the end of the next token, which takes the place of the one before. It
/// works in place, since it is called once for each token of a text.
pub fn scan_token(text: &[u8], ahead: &mut Ahead)
    requires short { length text.now ≤ 4294967295 }
    requires within { ahead.old.offset ≤ length text.now }
    ensures same { rest_from text.now ahead.new ≡ scan_from text.now ahead.old.offset }
    ensures ahead { IsAhead text.now ahead.new }
{
    let offset = after_gap(text, ahead.offset);
    let Some((kind, len)) = first_token(&text[offset..]) else {
        ahead.token = None;
        ahead.offset = offset;
        return;
    };
    ahead.token = Some(PackedToken {
        start: offset as u32,
        len: len as u32,
        kind,
    });
    ahead.offset = offset + len;
}
