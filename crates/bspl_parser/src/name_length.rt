ghost use Rattle.std.specs.Prelude.{◌≡◌, ◌≤◌, drop, length};
ghost use Rattle.bspl_parser.specs.inner.NameLength.{has_begin, has_plain, goes_on};
ghost use Rattle.bspl_parser.specs.inner.NameLength.{is_plain, after_plain};
ghost use Rattle.bspl_parser.specs.inner.NameLength.{after_digit, next_state, is_final, name_len};
ghost use Rattle.bspl_types.specs.Name.{begins_name};

/// How a name, or a reserved word, may go on after the bytes that were read.
#[derive(Clone, Copy)]
enum State {
    /// A plain name is to begin.
    Start,
    /// A plain name may end here.
    Plain,
    /// A letter or a digit has to come after a `-`.
    Dash,
    /// A number is to begin.
    Hash,
    /// A `.` may end the number.
    Number,
}

impl State {
    /// The state after a further byte, if a name can have it here.
    fn next(self, byte: u8) -> Option<State>
        ensures { result ≡ next_state self byte }
    {
        match self {
            State::Start => is_begin(byte).then_some(State::Plain),
            State::Plain => after_plain(byte),
            State::Dash => byte.is_ascii_alphanumeric().then_some(State::Plain),
            State::Hash => (byte.is_ascii_digit() && byte != b'0').then_some(State::Number),
            State::Number => after_digit(byte),
        }
    }

    /// Whether a name may end here.
    fn is_final(self) -> bool
        ensures { result ≡ is_final self }
    {
        matches!(self, State::Plain)
    }
}

/// Whether a plain name may begin with the byte.
fn is_begin(byte: u8) -> bool
    ensures { result ≡ begins_name byte }
{
    byte.is_ascii_alphabetic() || byte == b'_'
}

/// Whether a plain name may go on with the byte.
fn is_plain(byte: u8) -> bool
    ensures { result ≡ is_plain byte }
{
    byte.is_ascii_alphabetic() || byte.is_ascii_digit() || byte == b'_'
}

/// Whether a plain name may begin with the first byte.
fn has_begin(bytes: &[u8]) -> bool
    ensures { result ≡ has_begin bytes.now }
{
    match bytes {
        [] => false,
        [first, ..] => is_begin(*first),
    }
}

/// Whether a plain name may go on with the byte at the index.
fn has_plain_at(bytes: &[u8], index: usize) -> bool
    ensures { result ≡ has_plain (drop index bytes.now) }
{
    match bytes.get(index) {
        Some(byte) => is_plain(*byte),
        None => false,
    }
}

/// Whether a name may go on with the bytes after a plain one.
fn goes_on(rest: &[u8]) -> bool
    ensures { result ≡ goes_on rest.now }
{
    match rest {
        [b'-', next, ..] => next.is_ascii_alphanumeric(),
        [b'#', ..] => true,
        _ => false,
    }
}

/// The state after a byte that follows a letter, a digit or `_`.
fn after_plain(byte: u8) -> Option<State>
    ensures { result ≡ after_plain byte }
{
    if is_plain(byte) {
        return Some(State::Plain);
    }
    if byte == b'-' {
        return Some(State::Dash);
    }
    (byte == b'#').then_some(State::Hash)
}

/// The state after a byte that follows a digit of a number.
fn after_digit(byte: u8) -> Option<State>
    ensures { result ≡ after_digit byte }
{
    if byte.is_ascii_digit() {
        return Some(State::Number);
    }
    (byte == b'.').then_some(State::Start)
}

/// The length of the longest name or reserved word that the bytes begin with; 0 if they begin with
/// none.
#[tactic(auto, unfolding(crate::specs::inner::NameLength::name_len))]
fn long_name_len(bytes: &[u8]) -> usize
    ensures exact { result ≡ name_len bytes.now }
    ensures within { result ≤ length bytes.now }
{
    let mut state = State::Start;
    let mut len = 0;
    for (i, byte) in bytes.iter().enumerate() {
        let Some(next) = state.next(*byte) else {
            return len;
        };
        state = next;
        if state.is_final() {
            len = i + 1;
        }
    }
    len
}

/// The same. Most names are plain, so that their bytes go through no states.
pub fn name_len(bytes: &[u8]) -> usize
    ensures exact { result ≡ name_len bytes.now }
    ensures within { result ≤ length bytes.now }
{
    if !has_begin(bytes) {
        return 0;
    }
    let mut len = 1;
    while has_plain_at(bytes, len) {
        len += 1;
    }
    if goes_on(&bytes[len..]) {
        return long_name_len(bytes);
    }
    len
}
