ghost use Rattle.std.specs.Prelude.{◌≡◌, ◌≤◌, ◌==◌, length};
ghost use Rattle.bspl_types.specs.Name.{begins_name, goes_on, is_name_rest, is_plain_name};
ghost use Rattle.bspl_types.specs.Name.{is_positive_number, is_group, is_grouped, is_reserved};
ghost use Rattle.bspl_types.specs.Name.{is_name};
ghost use Rattle.std.specs.List.{list_all, position_or_len, slice_split};
ghost use Rattle.std.specs.Option.{option_map};
ghost use Rattle.std.specs.Str.{bytes_eq};
ghost use Rattle.bspl_types.specs.inner.Pieces.{StartsPieces};

use text_lines::are_digits;

/// Whether the bytes are a name.
#[tactic(auto, unfolding(crate::specs::Name::is_name))]
pub fn is_name(text: &[u8]) -> bool
    ensures { result ≡ is_name text.now }
{
    is_grouped(text) && !is_reserved(text)
}

/// Whether the bytes are a plain name and groups.
fn is_grouped(text: &[u8]) -> bool
    ensures { result ≡ is_grouped (slice_split (λ b. b == 35) text.now) }
{
    let (plain, groups) = first_piece(text);
    is_plain_name(plain)
        && match groups {
            None => true,
            Some(groups) => are_groups(groups),
        }
}

/// Whether the text between each `#` and the next is a group.
fn are_groups(text: &[u8]) -> bool
    ensures { result ≡ list_all is_group (slice_split (λ b. b == 35) text.now) }
{
    let mut rest = text;
    'pieces: loop {
        let (group, more) = first_piece(rest);
        if !is_group(group) {
            return false;
        }
        match more {
            None => return true,
            Some(more) => rest = more,
        }
    }
}

/// The text before the first `#`, and the text after it.
#[tactic(auto, using(crate::proofs::Pieces::two_pieces, crate::proofs::Pieces::one_piece))]
fn first_piece(text: &[u8]) -> (&[u8], Option<&[u8]>)
    ensures { StartsPieces (λ b. b == 35) text.now result.0.now
        (option_map (λ rest. rest.now) result.1) }
{
    let end = first_index(text, b'#');
    if end == text.len() {
        (text, None)
    } else {
        (&text[..end], Some(&text[end + 1..]))
    }
}

/// Whether the bytes are a name without groups, or a reserved word.
pub fn is_plain_name(text: &[u8]) -> bool
    ensures { result ≡ is_plain_name text.now }
{
    match text {
        [] => false,
        [first, rest @ ..] => begins_name(*first) && is_name_rest(rest),
    }
}

/// Whether a name may begin with the byte.
pub fn begins_name(b: u8) -> bool
    ensures { result ≡ begins_name b }
{
    b.is_ascii_alphabetic() || b == b'_'
}

/// Whether a name may go on with the bytes to its end.
fn is_name_rest(text: &[u8]) -> bool
    ensures { result ≡ is_name_rest text.now }
{
    for i in 0..text.len() {
        if !goes_on(text[i], &text[i + 1..]) {
            return false;
        }
    }
    true
}

/// Whether a name may go on with the byte before the rest.
fn goes_on(b: u8, rest: &[u8]) -> bool
    ensures { result ≡ goes_on b rest.now }
{
    let is_word = b.is_ascii_alphanumeric() || b == b'_';
    match rest {
        [] => is_word,
        [next, ..] => is_word || (b == b'-' && next.is_ascii_alphanumeric()),
    }
}

/// Whether the bytes are a number, `.` and a plain name.
fn is_group(text: &[u8]) -> bool
    ensures { result ≡ is_group text.now }
{
    let dot = first_index(text, b'.');
    dot < text.len() && is_positive_number(&text[..dot]) && is_plain_name(&text[dot + 1..])
}

/// The index of the first such byte, or the length.
fn first_index(text: &[u8], wanted: u8) -> usize
    ensures index { result ≡ position_or_len (λ b. b == wanted) text.now }
    ensures within { result ≤ length text.now }
{
    for (index, b) in text.iter().enumerate() {
        if *b == wanted {
            return index;
        }
    }
    text.len()
}

/// Whether the bytes are digits, the first of them not 0.
fn is_positive_number(text: &[u8]) -> bool
    ensures { result ≡ is_positive_number text.now }
{
    match text {
        [] => false,
        [first, rest @ ..] => first.is_ascii_digit() && *first != b'0' && are_digits(rest),
    }
}

/// Whether the bytes are a word that is a token of its own.
pub fn is_reserved(text: &[u8]) -> bool
    ensures { result ≡ is_reserved text.now }
{
    is_word(text, b"roles")
        || is_word(text, b"role")
        || is_word(text, b"parameters")
        || is_word(text, b"parameter")
        || is_word(text, b"private")
        || is_word(text, b"in")
        || is_word(text, b"out")
        || is_word(text, b"nil")
        || is_word(text, b"any")
        || is_word(text, b"opt")
        || is_word(text, b"key")
}

/// Whether the bytes are the word.
fn is_word(text: &[u8], word: &[u8]) -> bool
    ensures { result ≡ bytes_eq text.now word.now }
{
    text == word
}
