//! What `explain ask` says after an answer, word for word.

// A question.
pub(crate) const POSSIBLE: &[u8] =
    b"Some legal run answers the question with yes: the one above does, at its end, in one \
enactment. Other runs may not.\n\
What to ask next: if this must never be, the run shows how it comes about; let a message of it need \
by `in` what it has to wait for, and ask again. If it is to be so whenever an enactment is at rest, \
ask `rest and not ( QUESTION )`, which has to be impossible then.\n";

pub(crate) const IMPOSSIBLE: &[u8] =
    b"No legal run, over any number of keys, answers the question with yes at any of them.\n\
What to ask next: a message that is dead breaks no rule. Ask `sent M` too for each message M of the \
question, or run `bspl dead`.\n";

pub(crate) const UNDECIDED: &[u8] =
    b"The search met as many conflicts as it may. This says nothing of the question: it may be \
possible or impossible.\n\
What to ask next: allow more by `--conflicts`, which takes 20000 at most, or ask for a part of the \
question alone.\n";

// A log.
pub(crate) const ACCEPTED: &[u8] =
    b"The log proves that no legal run answers the question with yes, whoever made the log.\n\
What to ask next: a message that is dead breaks no rule. Ask `sent M` too for each message M of the \
question, or run `bspl dead`.\n";

pub(crate) const NOT_ACCEPTED: &[u8] =
    b"What is wrong: the log proves nothing, for the reason that the line gives.\n\
What to do: mend it there, or take a log from `bspl ask`; the question may be impossible all the \
same.\n";

// The rules in a protocol's text.
pub(crate) const KEPT: &[u8] =
    b"The protocol keeps each rule in its text: no legal run answers the question of a rule `never` \
with yes, and the run below a rule `some` does, at its end.\n\
What to ask next: a message that is dead breaks no rule `never`. Ask `sent M` too for each message M \
of such a rule, also as a rule `//? some sent M`, or run `bspl dead`.\n";

pub(crate) const BROKEN: &[u8] =
    b"What is wrong: a rule is broken. The run below a broken rule `never` answers its question with \
yes, at its end, and no legal run answers that of a broken rule `some` so. A rule that is kept is \
kept, and of one that is undecided nothing is known.\n\
What to do: for `never`, let a message of the run need by `in` what it has to wait for. For `some`, \
ask for parts of the question, as `sent M` for its messages, to see which is impossible.\n";

pub(crate) const SOME_UNDECIDED: &[u8] =
    b"The search for an undecided rule met as many conflicts as it may. This says nothing of that \
rule: the protocol may keep it or not. It keeps the rules that are kept, and none is found broken.\n\
What to ask next: allow more by `--conflicts`, which takes 20000 at most, or divide the rule.\n";
