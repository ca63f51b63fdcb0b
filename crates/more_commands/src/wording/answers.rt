//! What `explain` says after an answer, word for word.

// A text that is printed, or replied.
pub(crate) const EXPANDED: &[u8] =
    b"This is the protocol with messages in place of references. The prefix of a name, as in \
`Q#1.t`, tells from which reference it comes.\n";

pub(crate) const REPLIED: &[u8] = b"The lines reply to those of the part, in their order.\n";

// Logs.
pub(crate) const PROVED: &[u8] =
    b"The log proves that the protocol has the property, whoever made the log.\n";

pub(crate) const NOT_PROVED: &[u8] =
    b"What is wrong: the log proves nothing, for the reason that the line gives.\n\
What to do: mend it there, or take a log from `bspl verify`; the protocol may have the property \
all the same.\n";

pub(crate) const PROVED_DEAD: &[u8] =
    b"The log proves that no legal run sends the message, whoever made the log.\n";

pub(crate) const NOT_PROVED_DEAD: &[u8] =
    b"What is wrong: the log proves nothing, for the reason that the line gives.\n\
What to do: mend it there, or take a log from `bspl dead`; the message may be dead all the same.\n";

// A run.
pub(crate) const LEGAL: &[u8] = b"Each event of the run may follow those before it.\n\
After `conflict` stand a parameter and two events that produce it in one enactment, after `loose` \
a message that was not received or that can still be sent, and after `unbound` a public parameter \
that no role knows.\n";

pub(crate) const ILLEGAL: &[u8] =
    b"What is wrong: the event of that number may not follow those before it: its sender does not \
know the parameter (`missing`), knows another value of it (`other`), or knows it already \
(`bound`), or what is received was not sent before (`unsent`).\n\
What to do: change the event, or put before it what it needs.\n";

// Histories.
pub(crate) const CONSISTENT: &[u8] = b"In the run above each role has its history.\n";

pub(crate) const INCONSISTENT: &[u8] =
    b"What is wrong: no legal run gives each role its history. The line names the first entry that \
cannot be, by its role and its number, or receipts of which each would have to come after the \
next.\n\
What to do: look there: a record is wrong or has gaps, or a role did what it may not do.\n";

// Messages that may be dead.
pub(crate) const NONE_DEAD: &[u8] = b"Each message is sent by some legal run.\n";

pub(crate) const SOME_DEAD: &[u8] = b"What is wrong: no legal run sends a message that is dead.\n\
What to do: take it away, or see to it that its sender can know all of its `in` parameters and \
none of the others at one time.\n";

pub(crate) const SOME_UNDECIDED: &[u8] =
    b"What is wrong: the search for a message met as many conflicts as it may.\n\
What to do: allow more by `--conflicts`, which takes 20000 at most.\n";

// Agents.
pub(crate) const PLAYED: &[u8] =
    b"The protocol is safe and live, and its agents have played until nothing was left to do.\n";

pub(crate) const REFUTED: &[u8] =
    b"What is wrong: the protocol is not safe or not live. Agents play only one that is found safe.\n\
What to do: hear of the verdicts from `explain verify`, and repair the protocol.\n";

pub(crate) const NOT_FOUND: &[u8] =
    b"What is wrong: a search met as many conflicts as it may. Agents play only a protocol that is \
found safe.\n\
What to do: allow more by `--conflicts`, which takes 20000 at most.\n";
