//! What the sections of a page say, and the markup round it. A `$` is a hole that a fragment fills.

/// The head of the page: its title, the style, and the title again.
pub(crate) const PAGE_HEAD: &[u8] =
    b"<!DOCTYPE html>\n<html lang=\"en\">\n<head>\n<meta charset=\"utf-8\">\n\
    <meta name=\"viewport\" content=\"width=device-width\">\n\
    <title>$: safety $, liveness $</title>\n<style>\n$</style>\n</head>\n<body>\n\
    <h1>$: safety $, liveness $</h1>\n";
/// The end of the page.
pub(crate) const PAGE_END: &[u8] = b"</body>\n</html>\n";

// The verdicts in a word or two, in the title.
/// Of a safe protocol.
pub(crate) const SAFE: &[u8] = b"safe";
/// Of an unsafe one.
pub(crate) const UNSAFE: &[u8] = b"unsafe";
/// Of a live one.
pub(crate) const LIVE: &[u8] = b"live";
/// Of one that is not live.
pub(crate) const NOT_LIVE: &[u8] = b"not live";
/// Of a verdict, or a rule, whose search came to no answer.
pub(crate) const UNDECIDED: &[u8] = b"undecided";

// The sections of the verdicts.
/// What a safe protocol is.
pub(crate) const SAFE_SAID: &[u8] =
    b"<h2>Safety: safe</h2>\n<p>In no legal run is a parameter of one enactment \
    produced twice, and no two roles ever know different values of it.</p>\n";
/// The positions of two producers, and what they produce.
pub(crate) const UNSAFE_SAID: &[u8] =
    b"<h2>Safety: unsafe</h2>\n<p>Events $ and $ of this legal run, counted from 1 below \
    its first line, both produce <b>$</b> in one enactment.</p>\n";
/// What a live protocol is.
pub(crate) const LIVE_SAID: &[u8] =
    b"<h2>Liveness: live</h2>\n<p>At each key at which a legal run is at rest, each \
    public parameter that is to have a value is known to some role.</p>\n";
/// The parameter that no role knows.
pub(crate) const NOT_LIVE_SAID: &[u8] =
    b"<h2>Liveness: not live</h2>\n<p>After this legal run the enactment is at rest: what was \
    sent has arrived, no message that was not sent yet can be sent, and no role knows \
    <b>$</b>.</p>\n";
/// The property whose search came to no answer, and after how many conflicts.
pub(crate) const UNDECIDED_SAID: &[u8] =
    b"<h2>$: undecided</h2>\n<p>The search met as many conflicts as it may, $, \
    without an answer.</p>\n";
/// The property that a search was on.
pub(crate) const SAFETY: &[u8] = b"Safety";
/// The other one.
pub(crate) const LIVENESS: &[u8] = b"Liveness";
/// The text of a run.
pub(crate) const RUN_TEXT: &[u8] = b"<pre>$</pre>\n";

// The section of the rules in the protocol's text.
/// What a kept rule is.
pub(crate) const RULES_START: &[u8] =
    b"<h2>Rules</h2>\n<p>A rule <code>never</code> is kept if no legal run \
    answers its question with yes, and a rule <code>some</code> if one does. Such a run is shown. \
    Of an undecided rule this is not known.</p>\n";
/// What is found of a rule, the word of the rule, and its question.
pub(crate) const RULE: &[u8] = b"<p><b>$</b>: <code>$ $</code></p>\n";
/// Of a rule that the protocol keeps.
pub(crate) const KEPT: &[u8] = b"kept";
/// Of one that it does not keep.
pub(crate) const BROKEN: &[u8] = b"broken";

// The section of a run that was given.
/// The position of the first bad event of an illegal run. What is wrong with it follows.
pub(crate) const ILLEGAL: &[u8] =
    b"<h2>Run: illegal</h2>\n<p>Event $ of the run may not follow those before it: ";
/// The parameter that the sender does not know.
pub(crate) const MISSING: &[u8] = b"its sender does not know <b>$</b>";
/// The parameter that is to be new to the sender, and the value that the sender knows.
pub(crate) const BOUND: &[u8] = b"its sender knows <b>$</b> already, as $";
/// The parameter that is sent with another value, and the value that the sender knows.
pub(crate) const OTHER: &[u8] = b"its sender knows <b>$</b> with the value $";
/// What is wrong with a reception of nothing.
pub(crate) const UNSENT: &[u8] = b"what is received was not sent before";
/// After what is wrong.
pub(crate) const SENTENCE_END: &[u8] = b".</p>\n";
/// Of a legal run without conflict.
pub(crate) const LEGAL: &[u8] =
    b"<h2>Run: legal</h2>\n<p>Each event of the run may follow those before it, and \
    none produces what another has produced in the same enactment.</p>\n";
/// Of a legal run: the positions of two producers, and what they produce.
pub(crate) const CONFLICT: &[u8] =
    b"<h2>Run: legal</h2>\n<p>Each event of the run may follow those before it. \
    Events $ and $ both produce <b>$</b> in one enactment.</p>\n";
/// In place of a chart of more events than that.
pub(crate) const TOO_LONG: &[u8] =
    b"<p>The run is not drawn, since a chart has at most $ events.</p>\n";
/// The lines of a report.
pub(crate) const REPORT: &[u8] = b"<p>The lines of <code>bspl replay</code>:</p>\n<pre>$</pre>\n";

// The section on dead messages.
/// If each message is sent by some legal run.
pub(crate) const NONE_DEAD: &[u8] =
    b"<h2>Dead messages: none</h2>\n<p>For each message there is a legal run \
    that sends it.</p>\n";
/// Before the list of messages.
pub(crate) const DEAD_START: &[u8] =
    b"<h2>Dead messages</h2>\n<p>A message is dead if no legal run sends it. \
    For each message that is not listed there is one that does.</p>\n<ul>\n";
/// A dead message.
pub(crate) const IS_DEAD: &[u8] = b"<li>$: dead</li>\n";
/// A message whose search came to no answer.
pub(crate) const IS_UNDECIDED: &[u8] = b"<li>$: undecided</li>\n";
/// After the list.
pub(crate) const DEAD_END: &[u8] = b"</ul>\n";

// The section of a world that agents have played.
/// If none play.
pub(crate) const NOT_PLAYED: &[u8] =
    b"<h2>World: not played</h2>\n<p>Agents play a protocol only if it is \
    found safe.</p>\n";
/// How many workload keys there are.
pub(crate) const WORLD: &[u8] =
    b"<h2>World</h2>\n<p>The agents have acted in turn until nothing was left \
    to do, as by <code>bspl run --threads 0</code>. Workload keys: $.</p>\n";
/// Before the rows of the messages.
pub(crate) const COUNTS_START: &[u8] =
    b"<table>\n<caption>How often each message was sent and received.</caption>\n\
    <thead><tr><th scope=\"col\">Message</th><th scope=\"col\">Sent</th>\
    <th scope=\"col\">Received</th></tr></thead>\n<tbody>\n";
/// A message, and how often it was sent and received.
pub(crate) const COUNTS_ROW: &[u8] = b"<tr><th scope=\"row\">$</th><td>$</td><td>$</td></tr>\n";
/// Before the heads of the parameters.
pub(crate) const VALUES_START: &[u8] =
    b"<h2>World: values</h2>\n<table>\n<caption>What some role knows of each \
    parameter under each workload key; a dash if none knows it.</caption>\n\
    <thead><tr><th scope=\"col\">Key</th>";
/// The head of a parameter's column.
pub(crate) const VALUES_HEAD: &[u8] = b"<th scope=\"col\">$</th>";
/// After the heads.
pub(crate) const HEADS_END: &[u8] = b"</tr></thead>\n<tbody>\n";
/// The workload number of a row. A cell for each parameter follows.
pub(crate) const VALUES_ROW: &[u8] = b"<tr><th scope=\"row\">$</th>";
/// The cell of a value.
pub(crate) const VALUE: &[u8] = b"<td>$</td>";
/// The cell of a parameter that no role knows.
pub(crate) const NO_VALUE: &[u8] = b"<td>-</td>";
/// After a row.
pub(crate) const ROW_END: &[u8] = b"</tr>\n";
/// Before the run of the world.
pub(crate) const PLAYED_START: &[u8] =
    b"<h2>World: events</h2>\n<p>All that the agents sent and received, as one \
    legal run.</p>\n";
