//! What a user reads of verdicts, word for word.

// What is not wrong, and what is another question.
pub(crate) const SAFE: &[u8] =
    b"Nothing is wrong with safety: in one enactment no parameter is produced twice, and \
roles never know different values of it.\n\
Whether a rule of your own holds is another question: put it with `bspl ask`.\n\
Whether each message can be sent at all is another question: ask `bspl dead`.\n";

pub(crate) const LIVE: &[u8] =
    b"Nothing is wrong with liveness: when an enactment is at rest, some role knows each \
public parameter that is to have a value.\n\
Whether a certain role knows it is another question: let that role answer with a \
public `out` parameter.\n\
A message that nobody has to send, as a reminder or a cancellation, keeps its \
enactment from rest while it can still be sent: ask `rest but M and not bound P` of such a \
message M and each public parameter P, to see whether the verdict hangs on it.\n";

// What two messages of an unsafe protocol do, event by event.
pub(crate) const NOT_SAFE: &[u8] =
    b"What is wrong: not safe, since two messages of one enactment produce ";

pub(crate) const EVENT: &[u8] = b"Event ";

pub(crate) const EVENT_IS: &[u8] = b" is ";

pub(crate) const AND_SENDER: &[u8] = b", and ";

pub(crate) const DOES_NOT_KNOW: &[u8] = b" does not know ";

pub(crate) const BEFORE_IT: &[u8] = b" before it.\n";

pub(crate) const ONE_ROLE_DECIDES: &[u8] = b"What to do: let one role decide ";

pub(crate) const OTHERS_ASK: &[u8] =
    b", and let others ask that role, or pass the value on by `in`.\n";

// What stays unknown in a protocol that is not live, and what keeps each producer from being sent.
pub(crate) const NOT_LIVE: &[u8] =
    b"What is wrong: not live, since after the run its enactment is at rest, and no role knows ";

pub(crate) const FROM: &[u8] = b" from ";

pub(crate) const TO: &[u8] = b" to ";

pub(crate) const WOULD_PRODUCE: &[u8] = b" would produce it, but ";

pub(crate) const KNOWS: &[u8] = b" knows ";

pub(crate) const ALREADY: &[u8] = b" already";

pub(crate) const NO_PRODUCER: &[u8] =
    b"No message produces it.\nWhat to do: let a message produce ";

pub(crate) const OTHERS_SUPPLY: &[u8] =
    b"; if others supply it, judge the protocol with a small one around it.\n";

pub(crate) const SOME_PRODUCER: &[u8] =
    b"What to do: see to it that one of these can be sent, or let another message produce ";

// What the search did not decide.
pub(crate) const SAFETY: &[u8] = b"safety";

pub(crate) const LIVENESS: &[u8] = b"liveness";

pub(crate) const IS_UNDECIDED: &[u8] =
    b" is undecided, since the search met as many conflicts as it may, ";

pub(crate) const LARGER_NUMBER: &[u8] =
    b"What to do: judge a part alone, or give a larger number by `--conflicts`, unless it was \
20000, the largest one.\n";
