//! The texts of a chart and of the table beside it. A `$` is a hole that a fragment fills.

/// The beginning of a chart, with its width and its height. Its title follows.
pub(crate) const CHART: &[u8] = b"<div class=\"chart\">\n<figure>\n\
    <svg role=\"img\" width=\"$\" height=\"$\" viewBox=\"0 0 $ $\">\n<title>";

// The titles: what a run shows.
pub(crate) const CLASH_TITLE: &[u8] = b"Sequence chart: events $ and $ both produce $";

pub(crate) const OPEN_TITLE: &[u8] = b"Sequence chart: at its end no role knows $";

pub(crate) const BAD_TITLE: &[u8] = b"Sequence chart: event $ may not follow those before it";

pub(crate) const PLAIN_TITLE: &[u8] = b"Sequence chart of a legal run";

/// What the chart is, for those who do not see it. The names of the roles follow.
pub(crate) const DESCRIPTION: &[u8] = b"</title>\n<desc>Time runs down the lifelines of ";
/// The name of a role in the description.
pub(crate) const DESCRIBED_ROLE: &[u8] = b"$, ";
/// The end of the description.
pub(crate) const DESCRIPTION_END: &[u8] =
    b"from left to right. The table after the chart has the same events.</desc>\n";

/// How a chart looks.
pub(crate) const STYLE: &[u8] = b"<style>\n\
.chart{display:flex;flex-wrap:wrap;gap:0 2em;align-items:flex-start}\n\
.chart figure{margin:0;max-width:100%;overflow-x:auto}\n\
.chart table{flex:1 1 20em}\n.chart th{white-space:nowrap}\n\
.chart figcaption{width:0;min-width:100%;color:var(--soft)}\n\
.chart path,.chart circle{fill:none;stroke:currentColor;stroke-width:1.2}\n\
.chart .m{fill:currentColor}\n.chart text{font:12px ui-monospace,monospace;\
fill:currentColor;stroke:var(--paper);stroke-width:4px;paint-order:stroke}\n\
@media print{.chart{display:block}.chart figure{overflow:visible}\n\
.chart svg{max-width:100%;height:auto}}\n</style>\n";

/// The box and the lifeline of a role, and its name.
pub(crate) const LIFELINE: &[u8] = b"<path d=\"M$ 8h80v28h-160v-28zm0 28V$\"/>\
    <text x=\"$\" y=\"27\" text-anchor=\"middle\">$$</text>\n";
/// The end of words that are cut.
pub(crate) const ELLIPSIS: &[u8] = b"&#8230;";

// The mark of an event, and its ring.
pub(crate) const MARK: &[u8] = b"<circle class=\"m\" cx=\"$\" cy=\"$\" r=\"4\"/>\n";

pub(crate) const RING: &[u8] = b"<circle cx=\"$\" cy=\"$\" r=\"9\"/>\n";

// An arrow, and its head to the right or to the left.
pub(crate) const ARROW: &[u8] = b"<path class=\"m\" d=\"M$ $L$ $$\"/>\n";

pub(crate) const RIGHT_HEAD: &[u8] = b"m0-5l11 5-11 5z";

pub(crate) const LEFT_HEAD: &[u8] = b"m0-5l-11 5 11 5z";

// A stub, and the line to its open circle, to the right or to the left.
pub(crate) const STUB: &[u8] = b"<path d=\"M$ $$\"/>\n";

pub(crate) const RIGHT_END: &[u8] = b"h52a4 4 0 1 0 8 0a4 4 0 1 0-8 0";

pub(crate) const LEFT_END: &[u8] = b"h-52a4 4 0 1 0-8 0a4 4 0 1 0 8 0";

/// The label of an event: its number, and its words.
pub(crate) const LABEL: &[u8] = b"<text x=\"$\" y=\"$\"$ dy=\"$\">$ $$</text>\n";
/// Where it is said of an emission that the chart has no reception of it.
pub(crate) const MISSING_LABEL: &[u8] = b"<text x=\"$\" y=\"$\"$ dy=\"16\">$</text>\n";
/// In the chart of a whole run.
pub(crate) const NOT_RECEIVED: &[u8] = b"not received";
/// In one that ends with an event that may not follow.
pub(crate) const NOT_YET: &[u8] = b"not received yet";
// Where a message goes, or comes from, before the name of a role.
pub(crate) const TO: &[u8] = b" to ";

pub(crate) const FROM: &[u8] = b" from ";
// Beside a lifeline, on its right or on its left.
pub(crate) const RIGHT_SIDE: &[u8] = b" dx=\"10\"";

pub(crate) const LEFT_SIDE: &[u8] = b" dx=\"-10\" text-anchor=\"end\"";
// Above or below an arrow.
pub(crate) const ABOVE: &[u8] = b"-6";

pub(crate) const BELOW: &[u8] = b"16";

// What the run shows, below the lifelines.
pub(crate) const CLASH_FOOT: &[u8] =
    b"<text x=\"10\" dy=\"22\" y=\"$\">ringed: both produce $$</text>\n";

pub(crate) const OPEN_FOOT: &[u8] = b"<path stroke-dasharray=\"6 4\" d=\"M0 $H$\"/>\
    <text x=\"10\" dy=\"22\" y=\"$\">no role knows $$</text>\n";

pub(crate) const BAD_FOOT: &[u8] =
    b"<text x=\"10\" dy=\"22\" y=\"$\">ringed: may not follow those before it</text>\n";

/// What explains the shapes.
pub(crate) const LEGEND: &[u8] = b"</svg>\n\
    <figcaption>A dot is an event. An arrow leads from a sending to its reception; \
    a line to an open circle has none in this chart.</figcaption>\n</figure>\n";

/// The heads of the table of events.
pub(crate) const EVENTS: &[u8] = b"<table>\n<thead><tr><th scope=\"col\">#</th>\
    <th scope=\"col\">Event</th><th scope=\"col\">New</th>\
    <th scope=\"col\">Known before</th></tr></thead>\n<tbody>\n";
// An event in words: its number, its role, its message, the other role, and what its ring means.
pub(crate) const EMISSION: &[u8] =
    b"<tr><th scope=\"row\">$</th><td>$ sends $ to $$</td><td class=\"v\">";

pub(crate) const RECEPTION: &[u8] =
    b"<tr><th scope=\"row\">$</th><td>$ receives $ from $$</td><td class=\"v\">";
// What a ring means.
pub(crate) const CLASH: &[u8] = b" <b>clash</b>";

pub(crate) const NOT_ALLOWED: &[u8] = b" <b>not allowed</b>";
/// A parameter and its value.
pub(crate) const FIELD: &[u8] = b"<span>$</span> ";
/// The next cell of an event.
pub(crate) const KNOWN: &[u8] = b"</td><td class=\"v\">";
/// The end of an event's row.
pub(crate) const EVENT_END: &[u8] = b"</td></tr>\n";
/// The end of the chart and its table.
pub(crate) const CHART_END: &[u8] = b"</div>\n";
