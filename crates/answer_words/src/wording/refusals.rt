//! What a user reads of a refusal, word for word.

/// What is wrong, all of it or up to the first name, and what to do, unless the place says it.
pub(crate) type Sentences = (&'static [u8], &'static [u8]);

// The sentences on each fault.
pub(crate) const NO_PART: Sentences = (
    b"the command needs the part line `%% ",
    b"write exactly that, alone in its line, end the line above it, and take any other \
part above it away",
);

pub(crate) const TOO_LONG: Sentences = (
    b"the input has more bytes than may be read",
    b"give a shorter input",
);

pub(crate) const BAD_BYTE: Sentences = (b"no word and no sign of the language begins here", b"");

pub(crate) const BAD_TOKEN: Sentences = (
    b"no protocol has this there, or the text ends too early",
    b"write one of these, or mend what is before the mark: a comma may be missing there",
);

pub(crate) const NO_PROTOCOL: Sentences = (
    b"the text declares no protocol ",
    b"ask for a name that the text declares; that of the file does not count",
);

pub(crate) const NAME_TWICE: Sentences = (
    b"this name is declared before, as it stands or with its prefix in the expansion",
    b"give one of the two another name; a name of a part gets a prefix, as in `Q#1.t`",
);

pub(crate) const UNKNOWN_NAME: Sentences = (
    b"this name is not declared as what it is used for here",
    b"correct the name, or declare it: a role in the line `roles`, a parameter in \
`parameters` or `private`, a protocol in the same text",
);

pub(crate) const OTHER_ARITY: Sentences = (
    b"this protocol has another number of roles or of parameters",
    b"give each of its roles and adorned public parameters, in its order",
);

pub(crate) const BAD_ADORNMENT: Sentences = (
    b"this adornment is not supported, or not the declared one",
    b"write `in`, `out` or `nil`, and in a reference the declared one",
);

pub(crate) const CYCLE: Sentences = (
    b"references lead from the protocol ",
    b"take one of these references away",
);

pub(crate) const OVER_LIMIT: Sentences = (
    b"there are more than ",
    b"divide the protocol, and judge its parts one by one",
);

pub(crate) const NO_KEY: Sentences = (
    b"no public parameter is a key, to tell enactments apart",
    b"mark one, as in `parameters out ID key, out item`",
);

pub(crate) const KEY_MISSING: Sentences = (
    b"the message ",
    b"add it: `out` where an enactment begins, `in` elsewhere",
);

pub(crate) const KEY_ELSEWHERE: Sentences = (
    b"`key` is on a name that the protocol does not declare as a key",
    b"take `key` away there, or mark the public parameter",
);

pub(crate) const TO_ITSELF: Sentences = (
    b"the message ",
    b"let another role receive it; what one role does alone is no message",
);

pub(crate) const PARAMETER_TWICE: Sentences = (
    b"the message ",
    b"keep one, since `out` includes the test of `nil`; if the text has only one, \
a reference gives its protocol the parameter twice",
);

pub(crate) const NO_MESSAGE: Sentences = (
    b"the protocol has no message ",
    b"ask for a message that `bspl expand` prints",
);

pub(crate) const LOG_FORM: Sentences = (
    b"a log has no such line there, or it ends too early",
    b"write `step CLAUSE PIVOT CLAUSE ..`, in `log 2` also `drop CLAUSE ..`, at last `end`",
);

pub(crate) const LOG_NUMBER: Sentences = (
    b"a number in this line is 0 or over 2147483647",
    b"count clauses and variables from 1",
);

pub(crate) const RUN_FORM: Sentences = (
    b"a run has no such line there, or it ends too early",
    b"write `send MESSAGE PARAM=VALUE ..` or `receive ..`, values in the order of the \
message as `bspl expand` prints it, those of `nil` left out; a value is a whole number, or a text \
of 32 bytes at most in quotes, with each blank as `\\20`; at last `end`",
);

pub(crate) const SCRIPT_FORM: Sentences = (
    b"this line has no form of a script, or breaks one of its rules",
    b"",
);

pub(crate) const SCRIPT_NAME: Sentences = (
    b"the line names what the protocol does not have for it",
    b"",
);

pub(crate) const HISTORY_FORM: Sentences = (
    b"histories have no such line there, or they end too early",
    b"write `role ROLE`, once for the role, and below it what this role sends and receives, as \
`send MESSAGE PARAM=VALUE ..` or `receive ..`, values in the order of the message as \
`bspl expand` prints it, those of `nil` left out; a value is a whole number, or a text of 32 bytes \
at most in quotes, with each blank as `\\20`; at last `end`",
);

pub(crate) const NO_ROLE: Sentences = (
    b"the part does not begin with the line of a role of the protocol",
    b"begin it with `role ROLE`, and end that line with LF alone",
);

pub(crate) const NO_ROLE_NAMED: Sentences = (
    b"the protocol has no role ",
    b"name a role that `bspl expand` prints; after `knows` comes a role and then a parameter",
);

pub(crate) const NO_PARAMETER: Sentences = (
    b"the protocol has no parameter ",
    b"name a parameter that `bspl expand` prints",
);

pub(crate) const QUESTION_BYTE: Sentences = (
    b"no word and no bracket begins at the byte of that offset, counted from 0 in the question, or \
for a rule in the whole text",
    b"write words, names and round brackets alone, as in `sent bill and not ( received pay )`",
);

pub(crate) const QUESTION_LONG: Sentences = (
    b"the number is that of the tokens in the question, brackets counted; it may have 256",
    b"put its parts one by one: the terms of an `or` are questions of their own",
);

pub(crate) const QUESTION_TOKEN: Sentences = (
    b"no question has the word or the sign that begins at the byte of that offset, counted from 0 in \
the question, or for a rule in the whole text; or it ends there too early",
    b"write `sent M`, `received M`, `knows R P`, `bound P`, one of these `before` or `after` another, \
`can M`, `rest` or `rest but M`, joined by `not`, `and`, `or` and round brackets; a rule begins with \
`never` or `some`",
);

// What is wrong, after the first name and after the second.
pub(crate) const NO_PART_THERE: &[u8] = b"`, and it is not there, or another part comes first";

pub(crate) const BACK_TO_IT: &[u8] = b" back to it";

pub(crate) const LACKS_KEY: &[u8] = b" lacks the key ";

pub(crate) const GOES_TO_ITSELF: &[u8] = b" goes to the role that sends it";

pub(crate) const HAS_PARAMETER: &[u8] = b" has the parameter ";

pub(crate) const AS_IN_OR_OUT: &[u8] = b" as `in` or `out`";

pub(crate) const TWICE: &[u8] = b" twice";

// What to do about the first line of a part.
pub(crate) const LOG_HEADING: &[u8] =
    b"for `check` begin with `log 1 safety` or `log 1 liveness`, for `check-dead` with \
`log 1 dead MESSAGE` and a message as `bspl expand` prints it, and end each line with LF alone";

pub(crate) const RUN_HEADING: &[u8] = b"begin with `run 1`, and end each line with LF alone";

pub(crate) const HISTORY_HEADING: &[u8] =
    b"begin with `histories 1`, and end each line with LF alone";

// What to do about a byte at which no token begins.
pub(crate) const COMMENT_ADVICE: &[u8] = b"begin a comment with //";

pub(crate) const PART_LINE_ADVICE: &[u8] =
    b"a part line is alone: `%% agents`, `%% log`, `%% run`, `%% histories` or `%% wire`";

pub(crate) const BYTE_ORDER_ADVICE: &[u8] = b"save the text as UTF-8 without a byte order mark";

pub(crate) const ARROW_ADVICE: &[u8] = b"write the arrow `->`";

pub(crate) const DASH_ADVICE: &[u8] = b"write `-`, as in the arrow `->`";

pub(crate) const SEMICOLON_ADVICE: &[u8] =
    b"take it away: a message ends with its `]`, and a line of names with no sign";

pub(crate) const EQUALS_ADVICE: &[u8] =
    b"take it away: a protocol has names, and gives them no values";

pub(crate) const ASCII_ADVICE: &[u8] =
    b"write ASCII, in names too, but for comments; save the text as plain text in UTF-8";

pub(crate) const NAME_ADVICE: &[u8] =
    b"a name has ASCII letters, digits, `_` and `-`, and begins with a letter or `_`";

// What to do about a line of a script, by its first word.
pub(crate) const KEYS_RULE: &[u8] =
    b"write `keys N` with N from 1 to 10000, once, and without `key`";

pub(crate) const KEY_RULE: &[u8] =
    b"write `key VALUE ..`, a value for each key, no line twice, and without `keys`; a value is a \
whole number, or a text of 32 bytes at most in quotes, with each blank as `\\20`";

pub(crate) const SEED_RULE: &[u8] = b"write `seed N` with a number of 64 bits, once";

pub(crate) const LOSS_RULE: &[u8] = b"write `loss N` with N from 0 to 1000, once";

pub(crate) const REPEAT_RULE: &[u8] = b"write `repeat N` with N from 0 to 3, once";

pub(crate) const ORDER_RULE: &[u8] =
    b"write `order ROLE MESSAGE ..`, once for the role, with each message once";

pub(crate) const DECLINE_RULE: &[u8] =
    b"write `decline MESSAGE` or `decline MESSAGE every N`, N not 0, once for the message";

pub(crate) const VALUE_RULE: &[u8] =
    b"write `value MESSAGE PARAM A B`, where A * n + B has 64 bits for each key n, or \
`value MESSAGE PARAM \"text\"`, 32 bytes at most, with each blank as `\\20`; once for the \
parameter";

pub(crate) const OTHER_RULE: &[u8] =
    b"begin a line with keys, key, seed, loss, repeat, order, decline or value";

pub(crate) const ORDER_NAMES: &[u8] =
    b"name a role and messages that it sends, as `bspl expand` prints them";

pub(crate) const VALUE_NAMES: &[u8] =
    b"name a message as `bspl expand` prints it, and an `out` of it that is no key";

pub(crate) const OTHER_NAMES: &[u8] = b"name a message as `bspl expand` prints it";
