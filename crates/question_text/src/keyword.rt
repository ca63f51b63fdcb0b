ghost use Rattle.std.specs.Prelude.{◌≡◌};
ghost use Rattle.std.specs.Str.{bytes_eq};
ghost use Rattle.question_text.specs.inner.Keyword.{keyword_of};

/// A word of the language of questions, or a parenthesis.
#[derive(Clone, Copy)]
pub(crate) enum Keyword {
    Sent,
    Received,
    Knows,
    Bound,
    Can,
    Rest,
    But,
    Before,
    After,
    And,
    Or,
    Not,
    Open,
    Close,
}

/// The word of the language that this word is, if it is one.
pub(crate) fn keyword_of(word: &[u8]) -> Option<Keyword>
    ensures { result ≡ keyword_of word.now }
{
    if is_text(word, b"received") {
        return Some(Keyword::Received);
    }
    if is_text(word, b"before") {
        return Some(Keyword::Before);
    }
    match word {
        b"sent" => Some(Keyword::Sent),
        b"knows" => Some(Keyword::Knows),
        b"bound" => Some(Keyword::Bound),
        b"can" => Some(Keyword::Can),
        b"rest" => Some(Keyword::Rest),
        b"but" => Some(Keyword::But),
        b"after" => Some(Keyword::After),
        b"and" => Some(Keyword::And),
        b"or" => Some(Keyword::Or),
        b"not" => Some(Keyword::Not),
        b"(" => Some(Keyword::Open),
        b")" => Some(Keyword::Close),
        _ => None,
    }
}

/// Whether the word has these bytes.
fn is_text(word: &[u8], text: &[u8]) -> bool
    ensures { result ≡ bytes_eq word.now text.now }
{
    word == text
}
