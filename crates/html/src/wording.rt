//! The entities of words, the texts of a page's tables, and its style. A `$` is a hole that a
//! fragment fills.

// The entities of words. The last one stands for a byte that is not shown.
pub(crate) const QUOTE: &[u8] = b"&quot;";

pub(crate) const AMPERSAND: &[u8] = b"&amp;";

pub(crate) const APOSTROPHE: &[u8] = b"&#39;";

pub(crate) const LESS: &[u8] = b"&lt;";

pub(crate) const GREATER: &[u8] = b"&gt;";

pub(crate) const UNKNOWN: &[u8] = b"&#65533;";

/// The heads of the table of messages.
pub(crate) const MESSAGES: &[u8] = b"<h2>Messages</h2>\n<table>\n\
    <thead><tr><th scope=\"col\">Message</th><th scope=\"col\">From</th><th scope=\"col\">To</th>\
    <th scope=\"col\">Parameters</th></tr></thead>\n<tbody>\n";
/// A message, its sender and its receiver. Its parameters follow.
pub(crate) const MESSAGE: &[u8] =
    b"<tr><th scope=\"row\">$</th><td>$</td><td>$</td><td class=\"v\">";
/// The adornment and the name of a parameter that is no key.
pub(crate) const PARAMETER: &[u8] = b"<span>$ $</span> ";
/// The adornment and the name of a key.
pub(crate) const KEY_PARAMETER: &[u8] = b"<span>$ $ <b>key</b></span> ";
/// The end of a message's row.
pub(crate) const MESSAGE_END: &[u8] = b"</td></tr>\n";
/// The end of a table.
pub const TABLE_END: &[u8] = b"</tbody>\n</table>\n";

// The adornments, as protocols have them.
pub(crate) const IN: &[u8] = b"in";

pub(crate) const OUT: &[u8] = b"out";

pub(crate) const NIL: &[u8] = b"nil";

/// The caption of the table of what each role can learn, and the head of its first column.
pub(crate) const KNOWLEDGE: &[u8] = b"<h2>Knowledge</h2>\n<table>\n\
    <caption>From which messages each role can learn each parameter. Dead messages are left \
    out.</caption>\n\
    <thead><tr><th scope=\"col\">Parameter</th>";
/// The head of a role's column.
pub(crate) const ROLE_HEAD: &[u8] = b"<th scope=\"col\">$</th>";
/// The end of the heads.
pub(crate) const HEADS_END: &[u8] = b"</tr></thead>\n<tbody>\n";
/// A parameter. A cell for each role follows.
pub(crate) const SOURCES: &[u8] = b"<tr><th scope=\"row\">$</th>";
/// The beginning of a role's cell.
pub(crate) const CELL: &[u8] = b"<td>";
/// A message from which the role can learn the parameter.
pub(crate) const SOURCE: &[u8] = b"<span>$</span> ";
/// The end of a role's cell.
pub(crate) const CELL_END: &[u8] = b"</td>";
/// The end of a parameter's row.
pub(crate) const SOURCES_END: &[u8] = b"</tr>\n";

/// How a page looks: its colours in the light and in the dark, its words, its tables, the text of
/// a run, and all of it on paper.
pub const STYLE: &[u8] = b"\
:root{color-scheme:light dark;--ink:#1b1f24;--soft:#57606a;--line:#c4cbd3;\
--paper:#fff;--band:#eef1f4}\n\
@media(prefers-color-scheme:dark){:root{--ink:#e6eaee;--soft:#a3adb8;\
--line:#4a535e;--paper:#14181d;--band:#252c34}}\n\
body{margin:2em auto;max-width:64em;padding:0 1em;background:var(--paper);\
color:var(--ink);font:16px/1.45 system-ui,sans-serif}\n\
h1,h2,p{overflow-wrap:anywhere}\nh2{margin-top:1.6em}\n\
table{display:block;overflow-x:auto;border-collapse:collapse}\n\
caption{text-align:left;color:var(--soft);padding-bottom:.4em}\n\
th,td{text-align:left;vertical-align:top;padding:3px 12px 3px 0;\
border-bottom:1px solid var(--line);overflow-wrap:break-word}\n\
.v{font:14px/22px ui-monospace,monospace}\n\
.v>*{display:inline-block;margin-right:.6em}\n\
pre{background:var(--band);padding:.6em 1em;white-space:pre-wrap;\
overflow-wrap:anywhere;font:14px/22px ui-monospace,monospace}\n\
@media print{body{margin:0;max-width:none;padding:0;font-size:12px}\n\
.v,pre{font-size:11px;line-height:16px}\ntable{display:table}\n\
tr{break-inside:avoid}\nh2,caption{break-after:avoid}}\n";
