//! The page for people, written by tests/page_source.py from page.html.

/// The fields of the head that are about the page: its type, and what a browser is to let it do.
pub const FIELDS: &str = "\
content-type: text/html; charset=utf-8\r\n\
content-security-policy: default-src 'none'; script-src 'sha256-PDPrmHvgbnBUhLbYuGvu8/66fhAQhcmfI0fGgBCbIcg='; style-src 'sha256-keS0rPQMTrcc2BK+SwDCFvMQxp8jwaK0YvSfU840mpc='; connect-src 'self'; img-src data:; base-uri 'none'; form-action 'none'; frame-ancestors 'none'; require-trusted-types-for 'script'; trusted-types 'none'\r\n\
x-content-type-options: nosniff\r\n\
referrer-policy: no-referrer\r\n\
cache-control: no-cache\r\n\
";

/// The page.
pub const PAGE: &str = "\
<!doctype html>\n\
<html lang=\"en\">\n\
<head>\n\
<meta charset=\"utf-8\">\n\
<meta name=\"viewport\" content=\"width=device-width, initial-scale=1\">\n\
<meta name=\"color-scheme\" content=\"light dark\">\n\
<title>Silences</title>\n\
<link rel=\"icon\" href=\"data:,\">\n\
<style>\n\
:root {\n\
\x20\x20color-scheme: light dark;\n\
\x20\x20--ground: #ffffff; --sheet: #f3f5f8; --ink: #1c2128; --dim: #57606a; --edge: #7d8590; --rule: #d5dae1;\n\
\x20\x20--link: #0a55b8; --good: #116329; --late: #7a4a00; --bad: #a50e27; --on: #ffffff;\n\
}\n\
@media (prefers-color-scheme: dark) {\n\
\x20\x20:root {\n\
\x20\x20\x20\x20--ground: #0f1319; --sheet: #1a2029; --ink: #e8edf3; --dim: #a3adb9; --edge: #7d8794; --rule: #333c48;\n\
\x20\x20\x20\x20--link: #7ab7ff; --good: #63d482; --late: #eabf5e; --bad: #ff8f88; --on: #0f1319;\n\
\x20\x20}\n\
}\n\
* { box-sizing: border-box; }\n\
[hidden] { display: none !important; }\n\
body { max-width: 84rem; margin: 0 auto; padding: 0 1rem 2rem; background: var(--ground); color: var(--ink); font: 1rem/1.5 system-ui, sans-serif; }\n\
header { display: flex; flex-wrap: wrap; align-items: baseline; gap: 0 1.5rem; padding: .25rem 0; border-bottom: 1px solid var(--rule); }\n\
h1, h2 { margin: 0; font-size: 1.5rem; line-height: 1.3; }\n\
h2 { font-size: 1.25rem; overflow: clip; overflow-wrap: anywhere; }\n\
h1 a { color: inherit; text-decoration: none; }\n\
p { margin: 0; overflow-wrap: anywhere; }\n\
ul { margin: 0; padding: 0; list-style: none; }\n\
a { color: var(--link); }\n\
:focus-visible, #fault:focus { outline: 3px solid var(--link); outline-offset: 2px; }\n\
h2:focus { outline: none; }\n\
bdi { white-space: pre-wrap; overflow-wrap: anywhere; unicode-bidi: isolate; }\n\
code { font: .95em/1.5 ui-monospace, monospace; }\n\
label, legend { font-weight: 600; }\n\
small, .dim { color: var(--dim); font-size: .9rem; }\n\
small { display: block; }\n\
#filter-hint { display: inline; }\n\
input, select, textarea, button, .button { width: 100%; min-height: 2.25rem; padding: .25rem .75rem; border: 1px solid var(--edge); border-radius: .4rem; background: var(--ground); color: inherit; font: inherit; font-weight: 400; }\n\
textarea { display: block; field-sizing: content; resize: vertical; }\n\
#comment, #labels { min-height: 5.5rem; }\n\
[aria-invalid=true] { border: 2px solid var(--bad); }\n\
button, .button { display: inline-flex; align-items: center; justify-content: center; width: auto; background: var(--sheet); text-decoration: none; cursor: pointer; }\n\
button:disabled, .off { color: var(--dim); cursor: default; }\n\
.main { border-color: var(--link); background: var(--link); color: var(--on); }\n\
.main:disabled { border-color: var(--edge); background: var(--sheet); }\n\
.end { border-color: var(--bad); color: var(--bad); }\n\
.line { display: flex; flex-wrap: wrap; align-items: start; gap: .25rem .75rem; margin: .5rem 0; }\n\
#list > .line { margin: .25rem 0; }\n\
.row { align-items: center; }\n\
.wide { flex: 1 1 14rem; }\n\
.good, .active { color: var(--good); }\n\
.late, .pending { color: var(--late); }\n\
.bad, .fault, #fault { color: var(--bad); }\n\
#member { flex: 1 1 auto; }\n\
#around { display: flex; flex-wrap: wrap; gap: 0 1.25rem; }\n\
#around ul { display: contents; }\n\
#around li { min-width: 10rem; }\n\
#told { min-height: 1.75rem; padding: .1rem 0; }\n\
#list-head { flex: 1 1 auto; }\n\
#states { margin: 0; }\n\
#states a[aria-current] { border: 2px solid var(--link); font-weight: 600; }\n\
.chips { display: flow-root; max-height: 5.25rem; overflow: clip; text-decoration: none; }\n\
.chip { display: inline-block; max-width: 100%; margin: .1rem 0; padding: 0 .4rem; border: 1px solid var(--rule); border-radius: .3rem; overflow: clip; background: var(--sheet); vertical-align: top; }\n\
.rows > li { display: grid; gap: 0 1rem; padding: .4rem 0; border-top: 1px solid var(--rule); }\n\
.rows p { overflow: clip; }\n\
.rows time { white-space: nowrap; }\n\
.rows .acts { display: flex; gap: .5rem; overflow: visible; }\n\
.rows .said a { padding: .15rem 0; outline-offset: -3px; }\n\
.acts button, .acts .button { min-height: 1.75rem; padding: 0 .5rem; }\n\
#facts { display: grid; grid-template-columns: max-content 1fr; gap: .25rem 1rem; margin: .75rem 0; }\n\
#facts dt { color: var(--dim); }\n\
#facts dd { margin: 0; overflow: clip; overflow-wrap: anywhere; }\n\
#mutes { min-height: 1.5rem; }\n\
fieldset { margin: 0 0 .75rem; padding: .5rem .75rem; border: 1px solid var(--rule); border-radius: .4rem; }\n\
fieldset .line { padding-bottom: .5rem; border-bottom: 1px solid var(--rule); }\n\
fieldset .line > button { margin-top: 1.5rem; }\n\
.operator { flex: 0 0 5rem; }\n\
dialog { width: min(34rem, 100% - 2rem); max-width: none; max-height: calc(100% - 2rem); border: 1px solid var(--edge); border-radius: .6rem; background: var(--ground); color: var(--ink); }\n\
dialog::backdrop { background: rgb(0 0 0 / .55); }\n\
#asking-what, #asking-changes { margin: .5rem 0; overflow: clip auto; }\n\
@media (min-width: 60rem) {\n\
\x20\x20.rows > li { grid-template-columns: minmax(0, 5fr) minmax(0, 4fr) minmax(0, 4fr) 9.5rem; align-items: center; padding: .1rem 0; }\n\
\x20\x20.rows .said { display: -webkit-box; -webkit-box-orient: vertical; -webkit-line-clamp: 2; overflow: hidden; }\n\
\x20\x20.rows .acts { justify-content: end; }\n\
}\n\
@media (max-width: 40rem), (pointer: coarse) {\n\
\x20\x20input, select, textarea, button, .button { min-height: 2.75rem; }\n\
\x20\x20.acts button, .acts .button { min-height: 2.25rem; }\n\
}\n\
@media (max-width: 30rem) {\n\
\x20\x20#states a { flex: 1 1 auto; }\n\
\x20\x20#facts { grid-template-columns: 1fr; gap: 0; }\n\
\x20\x20#facts dd { margin-bottom: .5rem; }\n\
}\n\
</style>\n\
</head>\n\
<body>\n\
<header>\n\
\x20\x20<h1><a href=\"#/silences\">Silences</a></h1>\n\
\x20\x20<p id=\"member\">Asking the member …</p>\n\
\x20\x20<div id=\"around\">\n\
\x20\x20\x20\x20<ul id=\"peers\" aria-label=\"Peers\"></ul>\n\
\x20\x20\x20\x20<ul id=\"beside\" aria-label=\"Alertmanagers\"></ul>\n\
\x20\x20</div>\n\
</header>\n\
<noscript><p>This page wants JavaScript. Without it, use amtool or curl.</p></noscript>\n\
<div id=\"told\">\n\
\x20\x20<p id=\"said\" role=\"status\"></p>\n\
\x20\x20<p id=\"fault\" role=\"alert\" tabindex=\"-1\"></p>\n\
</div>\n\
<main>\n\
\x20\x20<section id=\"list\" aria-labelledby=\"list-head\" hidden>\n\
\x20\x20\x20\x20<div class=\"line row\">\n\
\x20\x20\x20\x20\x20\x20<h2 id=\"list-head\" tabindex=\"-1\">Silences</h2>\n\
\x20\x20\x20\x20\x20\x20<nav id=\"states\" class=\"line\" aria-label=\"States\"></nav>\n\
\x20\x20\x20\x20\x20\x20<a class=\"button\" href=\"#/alert\">Find by alert</a>\n\
\x20\x20\x20\x20\x20\x20<a id=\"new\" class=\"button main\" href=\"#/silences/new\">New silence</a>\n\
\x20\x20\x20\x20</div>\n\
\x20\x20\x20\x20<form id=\"search\" class=\"line\" role=\"search\">\n\
\x20\x20\x20\x20\x20\x20<div class=\"wide\">\n\
\x20\x20\x20\x20\x20\x20\x20\x20<label for=\"filter\">Filter</label>\n\
\x20\x20\x20\x20\x20\x20\x20\x20<small id=\"filter-hint\">by matchers, as <code>job=\"db\", env!~\"test.*\"</code>, or by words of matchers, creator and comment</small>\n\
\x20\x20\x20\x20\x20\x20\x20\x20<input id=\"filter\" type=\"search\" autocomplete=\"off\" spellcheck=\"false\" aria-describedby=\"filter-hint filter-fault\">\n\
\x20\x20\x20\x20\x20\x20\x20\x20<p id=\"filter-fault\" class=\"fault\" role=\"alert\"></p>\n\
\x20\x20\x20\x20\x20\x20</div>\n\
\x20\x20\x20\x20\x20\x20<div>\n\
\x20\x20\x20\x20\x20\x20\x20\x20<label for=\"sort\">Sort by</label>\n\
\x20\x20\x20\x20\x20\x20\x20\x20<select id=\"sort\">\n\
\x20\x20\x20\x20\x20\x20\x20\x20\x20\x20<option value=\"end\">End</option>\n\
\x20\x20\x20\x20\x20\x20\x20\x20\x20\x20<option value=\"start\">Start</option>\n\
\x20\x20\x20\x20\x20\x20\x20\x20\x20\x20<option value=\"creator\">Creator</option>\n\
\x20\x20\x20\x20\x20\x20\x20\x20</select>\n\
\x20\x20\x20\x20\x20\x20</div>\n\
\x20\x20\x20\x20</form>\n\
\x20\x20\x20\x20<nav class=\"pages line row\" aria-label=\"Pages\"></nav>\n\
\x20\x20\x20\x20<ul id=\"rows\" class=\"rows\" aria-label=\"Silences\"></ul>\n\
\x20\x20\x20\x20<nav class=\"pages line row\" aria-label=\"Pages, below\"></nav>\n\
\x20\x20</section>\n\
\x20\x20<section id=\"alert\" aria-labelledby=\"alert-head\" hidden>\n\
\x20\x20\x20\x20<h2 id=\"alert-head\" tabindex=\"-1\">Find by alert</h2>\n\
\x20\x20\x20\x20<form id=\"judge\" novalidate>\n\
\x20\x20\x20\x20\x20\x20<div class=\"line\">\n\
\x20\x20\x20\x20\x20\x20\x20\x20<div class=\"wide\">\n\
\x20\x20\x20\x20\x20\x20\x20\x20\x20\x20<label for=\"labels\">Labels of an alert</label>\n\
\x20\x20\x20\x20\x20\x20\x20\x20\x20\x20<textarea id=\"labels\" rows=\"3\" required autocomplete=\"off\" spellcheck=\"false\" aria-describedby=\"labels-hint labels-fault\"></textarea>\n\
\x20\x20\x20\x20\x20\x20\x20\x20\x20\x20<small id=\"labels-hint\">As <code>alertname=\"Down\", instance=\"db1:9100\"</code>, or as JSON</small>\n\
\x20\x20\x20\x20\x20\x20\x20\x20\x20\x20<p id=\"labels-fault\" class=\"fault\"></p>\n\
\x20\x20\x20\x20\x20\x20\x20\x20</div>\n\
\x20\x20\x20\x20\x20\x20</div>\n\
\x20\x20\x20\x20\x20\x20<p class=\"line\"><button id=\"find\" class=\"main\">Find silences</button></p>\n\
\x20\x20\x20\x20</form>\n\
\x20\x20\x20\x20<p id=\"muted\" role=\"status\"></p>\n\
\x20\x20\x20\x20<ul id=\"muting\" class=\"rows\" aria-label=\"Silences that mute this alert\"></ul>\n\
\x20\x20</section>\n\
\x20\x20<section id=\"one\" aria-labelledby=\"one-head\" hidden>\n\
\x20\x20\x20\x20<h2 id=\"one-head\" tabindex=\"-1\">Silence</h2>\n\
\x20\x20\x20\x20<dl id=\"facts\"></dl>\n\
\x20\x20\x20\x20<p id=\"mutes\"></p>\n\
\x20\x20\x20\x20<p class=\"line\">\n\
\x20\x20\x20\x20\x20\x20<button id=\"extend\" type=\"button\">Extend …</button>\n\
\x20\x20\x20\x20\x20\x20<a id=\"edit-it\" class=\"button\">Edit</a>\n\
\x20\x20\x20\x20\x20\x20<button id=\"expire\" class=\"end\" type=\"button\">Expire …</button>\n\
\x20\x20\x20\x20\x20\x20<a id=\"recreate\" class=\"button main\">Recreate</a>\n\
\x20\x20\x20\x20</p>\n\
\x20\x20\x20\x20<p><a id=\"back\" href=\"#/silences\">All silences</a></p>\n\
\x20\x20</section>\n\
\x20\x20<section id=\"edit\" aria-labelledby=\"edit-head\" hidden>\n\
\x20\x20\x20\x20<h2 id=\"edit-head\" tabindex=\"-1\">New silence</h2>\n\
\x20\x20\x20\x20<form id=\"form\" novalidate>\n\
\x20\x20\x20\x20\x20\x20<fieldset>\n\
\x20\x20\x20\x20\x20\x20\x20\x20<legend>Matchers</legend>\n\
\x20\x20\x20\x20\x20\x20\x20\x20<small>An alert is muted if all of them match. A list of matchers that is pasted into Label becomes rows.</small>\n\
\x20\x20\x20\x20\x20\x20\x20\x20<div id=\"matchers\"></div>\n\
\x20\x20\x20\x20\x20\x20\x20\x20<button id=\"add\" type=\"button\">Add a matcher</button>\n\
\x20\x20\x20\x20\x20\x20</fieldset>\n\
\x20\x20\x20\x20\x20\x20<div class=\"line\">\n\
\x20\x20\x20\x20\x20\x20\x20\x20<div class=\"wide\">\n\
\x20\x20\x20\x20\x20\x20\x20\x20\x20\x20<label for=\"starts\">Start</label>\n\
\x20\x20\x20\x20\x20\x20\x20\x20\x20\x20<input id=\"starts\" type=\"datetime-local\" aria-describedby=\"starts-hint starts-fault\">\n\
\x20\x20\x20\x20\x20\x20\x20\x20\x20\x20<small id=\"starts-hint\">Empty: at once</small>\n\
\x20\x20\x20\x20\x20\x20\x20\x20\x20\x20<p id=\"starts-fault\" class=\"fault\"></p>\n\
\x20\x20\x20\x20\x20\x20\x20\x20</div>\n\
\x20\x20\x20\x20\x20\x20\x20\x20<div class=\"wide\">\n\
\x20\x20\x20\x20\x20\x20\x20\x20\x20\x20<label for=\"duration\">Duration</label>\n\
\x20\x20\x20\x20\x20\x20\x20\x20\x20\x20<input id=\"duration\" autocomplete=\"off\" required aria-describedby=\"duration-hint duration-fault\">\n\
\x20\x20\x20\x20\x20\x20\x20\x20\x20\x20<small id=\"duration-hint\">As 45m, 2h or 1d 12h</small>\n\
\x20\x20\x20\x20\x20\x20\x20\x20\x20\x20<p id=\"duration-fault\" class=\"fault\"></p>\n\
\x20\x20\x20\x20\x20\x20\x20\x20</div>\n\
\x20\x20\x20\x20\x20\x20\x20\x20<div class=\"wide\">\n\
\x20\x20\x20\x20\x20\x20\x20\x20\x20\x20<label for=\"ends\">End</label>\n\
\x20\x20\x20\x20\x20\x20\x20\x20\x20\x20<input id=\"ends\" type=\"datetime-local\" aria-describedby=\"ends-hint ends-fault\">\n\
\x20\x20\x20\x20\x20\x20\x20\x20\x20\x20<small id=\"ends-hint\">In this browser's time zone</small>\n\
\x20\x20\x20\x20\x20\x20\x20\x20\x20\x20<p id=\"ends-fault\" class=\"fault\"></p>\n\
\x20\x20\x20\x20\x20\x20\x20\x20</div>\n\
\x20\x20\x20\x20\x20\x20</div>\n\
\x20\x20\x20\x20\x20\x20<div class=\"line\">\n\
\x20\x20\x20\x20\x20\x20\x20\x20<div class=\"wide\">\n\
\x20\x20\x20\x20\x20\x20\x20\x20\x20\x20<label for=\"author\">Creator</label>\n\
\x20\x20\x20\x20\x20\x20\x20\x20\x20\x20<input id=\"author\" autocomplete=\"username\" required aria-describedby=\"author-fault\">\n\
\x20\x20\x20\x20\x20\x20\x20\x20\x20\x20<button id=\"sign\" type=\"button\"></button>\n\
\x20\x20\x20\x20\x20\x20\x20\x20\x20\x20<p id=\"author-fault\" class=\"fault\"></p>\n\
\x20\x20\x20\x20\x20\x20\x20\x20</div>\n\
\x20\x20\x20\x20\x20\x20</div>\n\
\x20\x20\x20\x20\x20\x20<div class=\"line\">\n\
\x20\x20\x20\x20\x20\x20\x20\x20<div class=\"wide\">\n\
\x20\x20\x20\x20\x20\x20\x20\x20\x20\x20<label for=\"comment\">Comment</label>\n\
\x20\x20\x20\x20\x20\x20\x20\x20\x20\x20<textarea id=\"comment\" rows=\"3\" required aria-describedby=\"comment-fault\"></textarea>\n\
\x20\x20\x20\x20\x20\x20\x20\x20\x20\x20<p id=\"comment-fault\" class=\"fault\"></p>\n\
\x20\x20\x20\x20\x20\x20\x20\x20</div>\n\
\x20\x20\x20\x20\x20\x20</div>\n\
\x20\x20\x20\x20\x20\x20<p class=\"line\">\n\
\x20\x20\x20\x20\x20\x20\x20\x20<button id=\"save\" class=\"main\">Create</button>\n\
\x20\x20\x20\x20\x20\x20\x20\x20<a id=\"leave\" class=\"button\" href=\"#/silences\">Cancel</a>\n\
\x20\x20\x20\x20\x20\x20</p>\n\
\x20\x20\x20\x20</form>\n\
\x20\x20</section>\n\
</main>\n\
<dialog id=\"asking\" aria-labelledby=\"asking-head\" aria-describedby=\"asking-what asking-changes\">\n\
\x20\x20<h2 id=\"asking-head\"></h2>\n\
\x20\x20<p id=\"asking-what\"></p>\n\
\x20\x20<ul id=\"asking-changes\"></ul>\n\
\x20\x20<div id=\"asking-length\">\n\
\x20\x20\x20\x20<label for=\"longer\">Extend by</label>\n\
\x20\x20\x20\x20<select id=\"longer\">\n\
\x20\x20\x20\x20\x20\x20<option value=\"1800\">30 minutes</option>\n\
\x20\x20\x20\x20\x20\x20<option value=\"3600\">1 hour</option>\n\
\x20\x20\x20\x20\x20\x20<option value=\"7200\" selected>2 hours</option>\n\
\x20\x20\x20\x20\x20\x20<option value=\"28800\">8 hours</option>\n\
\x20\x20\x20\x20\x20\x20<option value=\"86400\">1 day</option>\n\
\x20\x20\x20\x20\x20\x20<option value=\"604800\">1 week</option>\n\
\x20\x20\x20\x20</select>\n\
\x20\x20</div>\n\
\x20\x20<p class=\"line\">\n\
\x20\x20\x20\x20<button id=\"keep\" type=\"button\">Cancel</button>\n\
\x20\x20\x20\x20<button id=\"go\" type=\"button\"></button>\n\
\x20\x20</p>\n\
</dialog>\n\
<script>\n\
\"use strict\";\n\
\n\
// Silences on a page; in milliseconds: from the last key to a filter, between looks, and for a resting mouse.\n\
const MOST_ROWS = 100, TYPING = 300, EVERY = 15000, RESTING = 60000;\n\
// How many characters of a text, and how many matchers, stand in a row of the list.\n\
const MOST_TEXT = 300, MOST_CHIPS = 20;\n\
const VIEWS = [\"list\", \"alert\", \"one\", \"edit\"];\n\
const STATES = [\"active\", \"pending\", \"expired\"];\n\
const OPERATORS = [\"=\", \"!=\", \"=~\", \"!~\"];\n\
const SILENCES = \"api/v2/silences\";\n\
const UNITS = [[\"w\", 604800], [\"d\", 86400], [\"h\", 3600], [\"min\", 60], [\"s\", 1]];\n\
// The last moment that a field takes, and a silence.\n\
const LAST = Date.UTC(9999, 11, 31);\n\
// A start in the past, which a member takes for now, even if this clock is ahead.\n\
const AT_ONCE = new Date(0).toISOString();\n\
// What the member's refusals mean.\n\
const REFUSALS = {\n\
\x20\x20\"bad filter\": \"The member can't read this filter. Write matchers as name=\\\"value\\\", with =, !=, =~ or !~.\",\n\
\x20\x20\"bad pattern\": \"The regular expressions can't be read, or are too large.\",\n\
\x20\x20\"no matcher\": \"A silence needs a matcher.\",\n\
\x20\x20\"empty label name\": \"A matcher lacks the name of its label.\",\n\
\x20\x20\"all matchers match the empty text\": \"These match every alert that lacks the labels: one matcher has to want something.\",\n\
\x20\x20\"end not after start\": \"The end has to be after the start.\",\n\
\x20\x20\"end in the past\": \"The end is in the past.\",\n\
\x20\x20\"silence not found\": \"The member has no such silence. It may have been forgotten since it ended.\",\n\
\x20\x20\"silence already expired\": \"This silence has ended already.\",\n\
\x20\x20\"newer version held\": \"The member holds a later change of this silence. Look at it once more.\",\n\
\x20\x20\"state too large\": \"The member has no room for more silences.\",\n\
\x20\x20\"held, but not kept on disk\": \"Done, and sent to the peers, but this member can't write it to its disk.\",\n\
\x20\x20\"not ready\": \"The member isn't ready: it waits for its peers, or stops.\",\n\
};\n\
\n\
const at = (id) => document.getElementById(id);\n\
\n\
// An element with attributes, listeners and content; texts go in as text.\n\
const make = (tag, attributes, ...children) => {\n\
\x20\x20const element = document.createElement(tag);\n\
\x20\x20for (const [name, value] of Object.entries(attributes)) {\n\
\x20\x20\x20\x20if (typeof value === \"function\") element.addEventListener(name, value);\n\
\x20\x20\x20\x20else element.setAttribute(name, value);\n\
\x20\x20}\n\
\x20\x20element.append(...children);\n\
\x20\x20return element;\n\
};\n\
\n\
// What somebody wrote: its direction and its blanks are its own.\n\
const written = (text) => make(\"bdi\", {}, text);\n\
\n\
// What this browser keeps, if it allows that.\n\
const kept = (storage, key) => { try { return storage().getItem(key); } catch { return null; } };\n\
const keep = (storage, key, value) => { try { storage().setItem(key, value); } catch { /* it is typed again */ } };\n\
const drop = (storage, key) => { try { storage().removeItem(key); } catch { /* nothing was kept */ } };\n\
const forLong = () => localStorage, forThisTab = () => sessionStorage;\n\
\n\
// ---- the member\n\
\n\
class Fault extends Error {\n\
\x20\x20constructor(message, word = \"\") {\n\
\x20\x20\x20\x20super(message);\n\
\x20\x20\x20\x20this.word = word;\n\
\x20\x20}\n\
}\n\
\n\
// What the member replies, as text.\n\
const askText = async (path, options = {}) => {\n\
\x20\x20let reply, text;\n\
\x20\x20try {\n\
\x20\x20\x20\x20reply = await fetch(path, { cache: \"no-store\", ...options });\n\
\x20\x20\x20\x20text = await reply.text();\n\
\x20\x20} catch {\n\
\x20\x20\x20\x20drawReadiness(null);\n\
\x20\x20\x20\x20throw new Fault(\"The member doesn't answer.\");\n\
\x20\x20}\n\
\x20\x20if (reply.ok) return text;\n\
\x20\x20let word = text;\n\
\x20\x20try { word = String(JSON.parse(text)); } catch { /* it is said as it stands */ }\n\
\x20\x20throw new Fault(REFUSALS[word] ?? `The member refuses this: ${short(word) || reply.statusText} (${reply.status}).`, word);\n\
};\n\
\n\
const ask = async (path, options) => {\n\
\x20\x20const text = await askText(path, options);\n\
\x20\x20try {\n\
\x20\x20\x20\x20return text ? JSON.parse(text) : null;\n\
\x20\x20} catch {\n\
\x20\x20\x20\x20throw new Fault(\"The member's reply can't be read.\");\n\
\x20\x20}\n\
};\n\
\n\
const post = (path, body) =>\n\
\x20\x20ask(path, { method: \"POST\", headers: { \"content-type\": \"application/json\" }, body: JSON.stringify(body) });\n\
\n\
const pathOf = (id) => `api/v2/silence/${encodeURIComponent(id)}`;\n\
const linkOf = (id) => `#/silences/${encodeURIComponent(id)}`;\n\
const editLinkOf = (id) => `#/silences/edit/${encodeURIComponent(id)}`;\n\
\n\
// ---- words\n\
\n\
// Milliseconds in words of so many units, as \"1 h 58 min\".\n\
const spanWords = (milliseconds, most = 2) => {\n\
\x20\x20let seconds = Math.max(0, Math.round(milliseconds / 1000));\n\
\x20\x20const parts = UNITS.map(([unit, length]) => {\n\
\x20\x20\x20\x20const count = Math.floor(seconds / length);\n\
\x20\x20\x20\x20seconds %= length;\n\
\x20\x20\x20\x20return [count, unit];\n\
\x20\x20});\n\
\x20\x20const first = parts.findIndex(([count]) => count > 0);\n\
\x20\x20if (first < 0) return \"0 s\";\n\
\x20\x20return parts.slice(first, first + most).filter(([count]) => count > 0).map((part) => part.join(\" \")).join(\" \");\n\
};\n\
\n\
// The milliseconds of a span that is typed, or NaN.\n\
const spanOf = (text) => {\n\
\x20\x20const parts = [...text.trim().matchAll(/(\\d+)\\s*(w|d|h|min|m|s)\\s*/gy)];\n\
\x20\x20if (parts.length === 0 || parts.map(([whole]) => whole).join(\"\") !== text.trim()) return NaN;\n\
\x20\x20const lengths = new Map([...UNITS, [\"m\", 60]]);\n\
\x20\x20return 1000 * parts.reduce((sum, [, count, unit]) => sum + count * lengths.get(unit), 0);\n\
};\n\
\n\
const wholeClock = new Intl.DateTimeFormat(undefined, { dateStyle: \"medium\", timeStyle: \"medium\" });\n\
const dayClock = new Intl.DateTimeFormat(undefined, { dateStyle: \"medium\", timeStyle: \"short\" });\n\
const hourClock = new Intl.DateTimeFormat(undefined, { timeStyle: \"short\" });\n\
const momentWords = (text) => wholeClock.format(new Date(text));\n\
const soonWords = (text) => {\n\
\x20\x20const date = new Date(text);\n\
\x20\x20return (date.toDateString() === new Date().toDateString() ? hourClock : dayClock).format(date);\n\
};\n\
\n\
const hasEnded = ({ status }) => status.state === \"expired\";\n\
\n\
// How long a silence lasts.\n\
const lastsWords = ({ startsAt, endsAt, status }) => {\n\
\x20\x20const starts = Date.parse(startsAt), ends = Date.parse(endsAt), now = Date.now();\n\
\x20\x20if (status.state === \"expired\") return `ended ${spanWords(now - ends)} ago`;\n\
\x20\x20if (status.state === \"pending\") return `begins in ${spanWords(starts - now)}, for ${spanWords(ends - starts)}`;\n\
\x20\x20return `ends in ${spanWords(ends - now)}`;\n\
};\n\
\n\
// The front of a long text; a link that would be cut is left out.\n\
const short = (text) => (text.length > MOST_TEXT ? `${text.slice(0, MOST_TEXT).replace(/https?:\\S*$/i, \"\")}…` : text);\n\
\n\
// A text in which links of the web are followed.\n\
const linked = (text) => text\n\
\x20\x20.split(/(\\bhttps?:\\/\\/[^\\s<>\"]*[^\\s<>\"'.,;:!?()[\\]{}])/i)\n\
\x20\x20.map((part, place) => (place % 2 ? make(\"a\", { href: part, rel: \"noreferrer\" }, written(part)) : written(part)));\n\
\n\
const orNone = (text, words, ...parts) => (text.trim() ? parts : [make(\"span\", { class: \"dim\" }, words)]);\n\
const creatorOf = (text) => orNone(text, \"no creator\", written(text));\n\
const commentOf = (text) => orNone(text, \"no comment\", ...linked(text));\n\
\n\
// ---- matchers\n\
\n\
const operatorOf = ({ isEqual, isRegex }) => OPERATORS[(isEqual === false ? 1 : 0) + (isRegex ? 2 : 0)];\n\
const quoted = (text) => `\"${text.replace(/[\\\\\"]/g, \"\\\\$&\").replaceAll(\"\\n\", \"\\\\n\").replaceAll(\"\\r\", \"\\\\r\")}\"`;\n\
const matcherWords = (matcher) => matcher.name + operatorOf(matcher) + quoted(matcher.value);\n\
const matchersWords = ({ matchers }) => matchers.map(matcherWords).join(\", \") || \"no matchers\";\n\
\n\
const chipOf = (matcher) =>\n\
\x20\x20make(\"code\", { class: \"chip\" }, written(short(matcher.name)), operatorOf(matcher), written(short(quoted(matcher.value))));\n\
\n\
// The parts of a text, between commas and lines outside of quotes, in braces or not.\n\
const partsOf = (text) => {\n\
\x20\x20const inner = text.trim().replace(/^\\{(.*)\\}$/s, \"$1\");\n\
\x20\x20return (inner.match(/(?:\"(?:\\\\.|[^\"\\\\])*\"?|[^\",\\n])+/gs) ?? []).map((part) => part.trim()).filter(Boolean);\n\
};\n\
\n\
// A part with an operator is a filter for the member; other parts are words to look for.\n\
const isFilter = (part) => /^[^\"\\s=!~]*\\s*(=~|!~|!=|=)/.test(part);\n\
const isMatcher = (part) => /^[a-z_:][\\w:]*\\s*(=~|!~|!=|=)/i.test(part);\n\
const isLabel = (text) => /^[a-z_:][\\w:]*$/i.test(text);\n\
const filtersOf = (text) => partsOf(text).filter(isFilter);\n\
const wordsOf = (text) => partsOf(text)\n\
\x20\x20.filter((part) => !isFilter(part))\n\
\x20\x20.flatMap((part) => (/^\".*\"$/s.test(part) ? [part.slice(1, -1)] : part.split(/\\s+/)))\n\
\x20\x20.map((word) => word.toLowerCase());\n\
\n\
// The matcher of a filter, as a silence has it.\n\
const matcherOf = (filter) => {\n\
\x20\x20const [, name, operator, value] = /^([^=!~]*?)\\s*(=~|!~|!=|=)\\s*(.*)$/s.exec(filter) ?? [null, filter, \"=\", \"\"];\n\
\x20\x20const inner = /^\"(.*)\"$/s.exec(value);\n\
\x20\x20const text = inner ? inner[1].replace(/\\\\([\"\\\\n])/g, (_, it) => (it === \"n\" ? \"\\n\" : it)) : value;\n\
\x20\x20return { name, value: text, isRegex: operator.endsWith(\"~\"), isEqual: !operator.startsWith(\"!\") };\n\
};\n\
\n\
// The labels of an alert in JSON, or null.\n\
const labelsOfJson = (text) => {\n\
\x20\x20let found;\n\
\x20\x20try { found = JSON.parse(text); } catch { return null; }\n\
\x20\x20const labels = Object.entries(found?.labels ?? found ?? {});\n\
\x20\x20return labels.length > 0 && labels.every(([, value]) => typeof value === \"string\") ? Object.fromEntries(labels) : null;\n\
};\n\
\n\
// The matchers that a text lists; none if it is something else.\n\
const matchersIn = (text) => {\n\
\x20\x20const labels = labelsOfJson(text);\n\
\x20\x20if (labels) return Object.entries(labels).map(([name, value]) => ({ name, value, isRegex: false, isEqual: true }));\n\
\x20\x20const parts = partsOf(text);\n\
\x20\x20return parts.every(isMatcher) ? parts.map(matcherOf) : [];\n\
};\n\
\n\
// The labels that a text lists, or null.\n\
const labelsIn = (text) => {\n\
\x20\x20const matchers = matchersIn(text);\n\
\x20\x20if (matchers.length === 0 || matchers.some((matcher) => operatorOf(matcher) !== \"=\")) return null;\n\
\x20\x20return Object.fromEntries(matchers.map(({ name, value }) => [name, value]));\n\
};\n\
\n\
// Returns why a browser can't read a regular expression: it spells flags and names of groups in another way.\n\
const reasonOf = (pattern) => {\n\
\x20\x20try {\n\
\x20\x20\x20\x20new RegExp(pattern.replace(/\\(\\?[imsU]+\\)/g, \"\").replaceAll(\"(?P<\", \"(?<\"));\n\
\x20\x20\x20\x20return \"\";\n\
\x20\x20} catch ({ message }) {\n\
\x20\x20\x20\x20return message.replace(/^.*: /s, \"\");\n\
\x20\x20}\n\
};\n\
\n\
// The first matcher with a bad regular expression, and why; or null.\n\
const brokenOf = (matchers) => {\n\
\x20\x20const place = matchers.findIndex(({ isRegex, value }) => isRegex && reasonOf(value));\n\
\x20\x20if (place < 0) return null;\n\
\x20\x20const { value } = matchers[place];\n\
\x20\x20return { place, words: `The regular expression ${quoted(short(value))} can't be read: ${reasonOf(value)}.` };\n\
};\n\
\n\
// ---- what is said\n\
\n\
// Success is announced politely, failure at once. A failed look is forgotten by the next that works.\n\
let toldByLook = false;\n\
const say = (text) => { at(\"said\").textContent = text; };\n\
const tell = (fault, byLook = false) => {\n\
\x20\x20if (!(fault instanceof Fault)) throw fault;\n\
\x20\x20toldByLook = byLook;\n\
\x20\x20if (at(\"fault\").textContent !== fault.message) at(\"fault\").textContent = fault.message;\n\
};\n\
const hush = () => { if (at(\"fault\").textContent) at(\"fault\").textContent = \"\"; };\n\
\n\
// Says below a field what is wrong with it; no words if it is right.\n\
const blame = (field, words) => {\n\
\x20\x20const place = at(`${field.id}-fault`);\n\
\x20\x20if (!place || place.textContent === words) return;\n\
\x20\x20place.textContent = words;\n\
\x20\x20field.setAttribute(\"aria-invalid\", words !== \"\");\n\
};\n\
\n\
// Whether all fields of a form are valid; focuses the first that isn't.\n\
const isFilled = (form) => {\n\
\x20\x20const fields = [...form.querySelectorAll(\"input, select, textarea\")];\n\
\x20\x20for (const field of fields) blame(field, field.validationMessage);\n\
\x20\x20const wrong = fields.find((field) => field.validationMessage);\n\
\x20\x20wrong?.focus();\n\
\x20\x20return !wrong;\n\
};\n\
\n\
// Does what was asked for, with its button disabled. Shows a fault of a field below the field.\n\
const act = async (button, doing, fieldOf = () => null) => {\n\
\x20\x20const hasFocus = document.activeElement === button;\n\
\x20\x20button.disabled = true;\n\
\x20\x20say(\"\");\n\
\x20\x20hush();\n\
\x20\x20try {\n\
\x20\x20\x20\x20await doing();\n\
\x20\x20} catch (fault) {\n\
\x20\x20\x20\x20const field = fieldOf(fault);\n\
\x20\x20\x20\x20if (field) blame(field, fault.message);\n\
\x20\x20\x20\x20else tell(fault);\n\
\x20\x20\x20\x20(field ?? at(\"fault\")).focus();\n\
\x20\x20} finally {\n\
\x20\x20\x20\x20button.disabled = false;\n\
\x20\x20\x20\x20if (hasFocus && document.activeElement === document.body) (drawnAgain(button) ?? at(`${route.view}-head`)).focus({ preventScroll: true });\n\
\x20\x20}\n\
};\n\
\n\
// An element, or the one that was drawn in its place.\n\
const drawnAgain = (element) => {\n\
\x20\x20const { key } = element?.dataset ?? {};\n\
\x20\x20return element?.isConnected ? element : [...document.querySelectorAll(\"[data-key]\")].find((it) => key && it.dataset.key === key);\n\
};\n\
\n\
// Who waits for an answer; a question that another one replaces is answered no.\n\
let answered = null;\n\
const answer = (goes) => {\n\
\x20\x20const done = answered;\n\
\x20\x20answered = null;\n\
\x20\x20if (at(\"asking\").open) at(\"asking\").close();\n\
\x20\x20done?.(goes);\n\
};\n\
\n\
// Asks a person whether to go on.\n\
const asks = ({ head, what, changes = [], go, kind = \"main\", keeps = \"Cancel\", hasLength = false }) => new Promise((done) => {\n\
\x20\x20answer(false);\n\
\x20\x20answered = done;\n\
\x20\x20at(\"asking-head\").textContent = head;\n\
\x20\x20at(\"asking-what\").replaceChildren(...what);\n\
\x20\x20at(\"asking-changes\").replaceChildren(...changes.map((words) => make(\"li\", {}, written(words))));\n\
\x20\x20at(\"asking-changes\").hidden = changes.length === 0;\n\
\x20\x20at(\"asking-length\").hidden = !hasLength;\n\
\x20\x20at(\"keep\").textContent = keeps;\n\
\x20\x20at(\"go\").textContent = go;\n\
\x20\x20at(\"go\").className = kind;\n\
\x20\x20at(\"asking\").showModal();\n\
\x20\x20at(hasLength ? \"longer\" : \"keep\").focus();\n\
});\n\
\n\
// ---- this member, its peers, and the Alertmanagers beside it\n\
\n\
const drawReadiness = (ready, name = at(\"member\").querySelector(\"b\")?.textContent ?? \"\") => {\n\
\x20\x20const [words, kind] = ready === null ? [\"doesn't answer\", \"bad\"] : ready ? [\"is ready\", \"good\"] : [\"isn't ready\", \"late\"];\n\
\x20\x20at(\"member\").replaceChildren(\"Member \", make(\"b\", {}, name), \" \", make(\"span\", { class: kind }, words));\n\
};\n\
\n\
// The figures of a family of /metrics by its first label, summed over the others.\n\
const figuresOf = (metrics, family) => {\n\
\x20\x20const lines = metrics.matchAll(/^(\\w+)\\{\\w+=\"((?:\\\\.|[^\"\\\\])*)\"[^}]*\\} (\\S+)/gm), found = new Map();\n\
\x20\x20for (const [, name, word, number] of lines) {\n\
\x20\x20\x20\x20if (name !== family) continue;\n\
\x20\x20\x20\x20const plain = word.replace(/\\\\(.)/g, (_, it) => (it === \"n\" ? \"\\n\" : it));\n\
\x20\x20\x20\x20found.set(plain, (found.get(plain) ?? 0) + Number(number));\n\
\x20\x20}\n\
\x20\x20return found;\n\
};\n\
\n\
const heardWords = (seconds) => {\n\
\x20\x20if (seconds === undefined) return \"\";\n\
\x20\x20return seconds > 0 ? `heard ${spanWords(Date.now() - 1000 * seconds, 1)} ago` : \"not heard yet\";\n\
};\n\
\n\
const neighbour = (name, words, kind = \"dim\") => make(\"li\", {}, make(\"b\", {}, name), \" \", make(\"span\", { class: kind }, words));\n\
\n\
// The Alertmanagers beside the member, from its options.\n\
// A port alone is one of the member's own machine.\n\
const besideOf = (options) => [...options.matchAll(/^--gossip (.*)=(\\S+)$/gm)]\n\
\x20\x20.map(([, name, address]) => [name, /^\\d+$/.test(address) ? `127.0.0.1:${address}` : address]);\n\
\n\
// What is said of an Alertmanager beside the member, and how.\n\
const besideWords = (metrics) => {\n\
\x20\x20const heard = figuresOf(metrics, \"maityrunga_alertmanager_last_heard_timestamp_seconds\");\n\
\x20\x20const lacked = figuresOf(metrics, \"maityrunga_alertmanager_lacked\"), withheld = figuresOf(metrics, \"maityrunga_silences_withheld_total\");\n\
\x20\x20return (name, address) => {\n\
\x20\x20\x20\x20const words = [`Alertmanager at ${address}`, heardWords(heard.get(name))];\n\
\x20\x20\x20\x20if (lacked.get(name) > 0) words.push(`lacked ${lacked.get(name)} then`);\n\
\x20\x20\x20\x20if (withheld.get(name) > 0) words.push(\"some silences aren't sent to it, see the member's lines\");\n\
\x20\x20\x20\x20return [words.filter(Boolean).join(\", \"), heard.get(name) === 0 || withheld.get(name) > 0 ? \"late\" : \"dim\"];\n\
\x20\x20};\n\
};\n\
\n\
const lookAtMember = async () => {\n\
\x20\x20const [ready, status, metrics] = await Promise.all([\n\
\x20\x20\x20\x20fetch(\"-/ready\", { cache: \"no-store\" }).then((reply) => reply.ok, () => null),\n\
\x20\x20\x20\x20ask(\"api/v2/status\").catch(() => null),\n\
\x20\x20\x20\x20askText(\"metrics\").catch(() => \"\"),\n\
\x20\x20]);\n\
\x20\x20drawReadiness(status && ready, status?.cluster?.name);\n\
\x20\x20if (!status) return;\n\
\x20\x20const heard = figuresOf(metrics, \"maityrunga_peer_last_heard_timestamp_seconds\"), peers = (status.cluster.peers ?? []).filter(({ name }) => name !== status.cluster.name);\n\
\x20\x20at(\"peers\").replaceChildren(...peers.map(({ name }) => neighbour(name, heardWords(heard.get(name)), heard.get(name) === 0 ? \"late\" : \"dim\")));\n\
\x20\x20const besides = besideOf(status.config?.original ?? \"\"), told = besideWords(metrics);\n\
\x20\x20at(\"beside\").replaceChildren(...besides.map(([name, address]) => neighbour(name, ...told(name, address))));\n\
};\n\
\n\
// ---- changes of a silence\n\
\n\
// The parts of a silence that are posted, as they are shown.\n\
const PARTS = {\n\
\x20\x20matchers: [\"Matchers\", (matchers) => matchersWords({ matchers })],\n\
\x20\x20startsAt: [\"Start\", momentWords],\n\
\x20\x20endsAt: [\"End\", momentWords],\n\
\x20\x20createdBy: [\"Creator\", String],\n\
\x20\x20comment: [\"Comment\", String],\n\
};\n\
const posted = (silence) => Object.fromEntries([\"id\", ...Object.keys(PARTS)].map((part) => [part, silence[part]]));\n\
const isSame = (part, first, second) =>\n\
\x20\x20part === \"matchers\" ? matchersWords(first) === matchersWords(second) : first[part] === second[part];\n\
const changesOf = (first, second) => Object.entries(PARTS)\n\
\x20\x20.filter(([part]) => !isSame(part, first, second))\n\
\x20\x20.map(([part, [name, words]]) => `${name}: ${short(words(first[part]))} → ${short(words(second[part]))}`);\n\
\n\
// Returns the silence as the member has it now. If somebody changed it, asks first; null to leave it as it is.\n\
const agreed = async (shown, go, another = \"\") => {\n\
\x20\x20const now = await ask(pathOf(shown.id)), changes = changesOf(shown, now), ended = hasEnded(now) && !hasEnded(shown);\n\
\x20\x20if (ended && !another) throw new Fault(REFUSALS[\"silence already expired\"]);\n\
\x20\x20if (!ended && changes.length === 0) return now;\n\
\x20\x20const since = spanWords(Date.now() - Date.parse(ended ? now.endsAt : now.updatedAt));\n\
\x20\x20const what = ended\n\
\x20\x20\x20\x20? `It ended ${since} ago. If you go on, another silence is created, with another ID.`\n\
\x20\x20\x20\x20: `It was updated ${since} ago. What you didn't change stays as it is now.`;\n\
\x20\x20const creator = isSame(\"createdBy\", shown, now) ? [\" Creator: \", ...creatorOf(now.createdBy)] : [];\n\
\x20\x20const goes = await asks({ head: ended ? \"This silence has ended meanwhile\" : \"This silence was changed meanwhile\", what: [what, ...creator], changes, go: ended ? another : go });\n\
\x20\x20return goes ? now : null;\n\
};\n\
\n\
const whatOf = (silence) => [...silence.matchers.slice(0, MOST_CHIPS).flatMap((it) => [chipOf(it), \" \"]), lastsWords(silence), \". \"];\n\
\n\
const extend = async (silence, button) => {\n\
\x20\x20if (!await asks({ head: \"Extend this silence\", what: whatOf(silence), go: \"Extend\", hasLength: true })) return;\n\
\x20\x20const more = 1000 * Number(at(\"longer\").value);\n\
\x20\x20await act(button, async () => {\n\
\x20\x20\x20\x20const now = await agreed(silence, \"Extend it all the same\", \"Create another\");\n\
\x20\x20\x20\x20if (!now) return look(true);\n\
\x20\x20\x20\x20const later = (from) => new Date(Date.parse(from) + more).toISOString();\n\
\x20\x20\x20\x20const longer = hasEnded(now)\n\
\x20\x20\x20\x20\x20\x20? { ...posted(now), id: undefined, startsAt: AT_ONCE, endsAt: later(silence.endsAt) }\n\
\x20\x20\x20\x20\x20\x20: { ...posted(now), endsAt: later(now.endsAt) };\n\
\x20\x20\x20\x20const { silenceID } = await post(SILENCES, longer);\n\
\x20\x20\x20\x20await settled(silenceID, silenceID === silence.id ? `Extended by ${spanWords(more)}` : \"Another silence is created\");\n\
\x20\x20});\n\
};\n\
\n\
const expire = async (silence, button) => {\n\
\x20\x20const what = [...whatOf(silence), \"Alerts that it mutes are notified again.\"];\n\
\x20\x20if (!await asks({ head: \"Expire this silence?\", what, go: \"Expire it now\", kind: \"end\", keeps: \"Keep it\" })) return;\n\
\x20\x20await act(button, async () => {\n\
\x20\x20\x20\x20if (!await agreed(silence, \"Expire it all the same\")) return look(true);\n\
\x20\x20\x20\x20await askText(pathOf(silence.id), { method: \"DELETE\" });\n\
\x20\x20\x20\x20await settled(silence.id, \"The silence has ended\");\n\
\x20\x20});\n\
};\n\
\n\
// Shows what was done, in the list's row or the silence's page.\n\
const settled = async (id, words) => {\n\
\x20\x20const stays = route.view === \"list\" || (route.view === \"one\" && route.id === id);\n\
\x20\x20if (!stays) history[route.view === \"edit\" ? \"replaceState\" : \"pushState\"](null, \"\", linkOf(id));\n\
\x20\x20const shows = stays ? look(true) : shown();\n\
\x20\x20if (route.view === \"one\") at(\"one-head\").focus();\n\
\x20\x20await shows;\n\
\x20\x20say(words);\n\
};\n\
\n\
// ---- the list\n\
\n\
// What is shown of the list: the silences that pass the filters of `asked`, and which of them are drawn.\n\
const list = { all: [], asked: \"\", state: \"active\", filter: \"\", sort: \"\", page: 0, drawn: \"\" };\n\
\n\
const listLink = (others) => {\n\
\x20\x20const { state, filter, sort, page } = { ...list, ...others };\n\
\x20\x20return `#/silences?${new URLSearchParams({ state, ...(filter && { filter }), ...(sort && { sort }), ...(page && { page: page + 1 }) })}`;\n\
};\n\
\n\
const newLink = () => {\n\
\x20\x20const filters = filtersOf(list.filter);\n\
\x20\x20return `#/silences/new${filters.length ? `?${new URLSearchParams({ filter: `{${filters.join(\", \")}}` })}` : \"\"}`;\n\
};\n\
\n\
const sortOf = ({ state, sort }) => sort || (state === \"pending\" ? \"start\" : \"end\");\n\
const names = new Intl.Collator();\n\
\n\
// Whether a silence has all these words, in lower case.\n\
const hasWords = (silence, words) => {\n\
\x20\x20const text = [matchersWords(silence), silence.createdBy, silence.comment, silence.id].join(\"\\n\").toLowerCase();\n\
\x20\x20return words.every((word) => text.includes(word));\n\
};\n\
\n\
const passing = () => {\n\
\x20\x20const words = wordsOf(list.filter);\n\
\x20\x20return words.length ? list.all.filter((silence) => hasWords(silence, words)) : list.all;\n\
};\n\
\n\
// Silences in order: the next to end or begin first, or the last one.\n\
const sorted = (silences) => {\n\
\x20\x20const sort = sortOf(list);\n\
\x20\x20if (sort === \"creator\") return silences.sort((first, second) => names.compare(first.createdBy, second.createdBy));\n\
\x20\x20const key = sort === \"start\" ? \"startsAt\" : \"endsAt\";\n\
\x20\x20const sign = list.state === \"expired\" || (sort === \"start\" && list.state === \"active\") ? -1 : 1;\n\
\x20\x20return silences\n\
\x20\x20\x20\x20.map((silence) => [Date.parse(silence[key]), silence])\n\
\x20\x20\x20\x20.sort(([first], [second]) => sign * (first - second))\n\
\x20\x20\x20\x20.map(([, silence]) => silence);\n\
};\n\
\n\
const loadList = async (mine, forced) => {\n\
\x20\x20const filters = filtersOf(list.filter), asked = JSON.stringify(filters);\n\
\x20\x20let all;\n\
\x20\x20try {\n\
\x20\x20\x20\x20all = await ask(`${SILENCES}?${new URLSearchParams(filters.map((filter) => [\"filter\", filter]))}`);\n\
\x20\x20} catch (fault) {\n\
\x20\x20\x20\x20if (fault.word !== \"bad filter\") throw fault;\n\
\x20\x20\x20\x20if (mine === turn) refuseFilter(filters, fault);\n\
\x20\x20\x20\x20return;\n\
\x20\x20}\n\
\x20\x20if (mine !== turn) return;\n\
\x20\x20blame(at(\"filter\"), \"\");\n\
\x20\x20Object.assign(list, { all, asked });\n\
\x20\x20drawList(forced);\n\
};\n\
\n\
// Says below the filter what is wrong with it.\n\
const refuseFilter = (filters, fault) => {\n\
\x20\x20const matchers = filters.map(matcherOf), isRead = filters.every(isMatcher) && matchers.some(({ isRegex }) => isRegex);\n\
\x20\x20blame(at(\"filter\"), isRead ? brokenOf(matchers)?.words ?? REFUSALS[\"bad pattern\"] : fault.message);\n\
\x20\x20clearList(\"No silences\");\n\
};\n\
\n\
const clearList = (words) => {\n\
\x20\x20Object.assign(list, { all: [], asked: null, drawn: \"\" });\n\
\x20\x20at(\"list-head\").textContent = words;\n\
\x20\x20at(\"rows\").replaceChildren();\n\
\x20\x20for (const nav of document.querySelectorAll(\".pages\")) nav.hidden = true;\n\
};\n\
\n\
// A button of a silence's row.\n\
const rowButton = (name, does, silence, words, kind = \"\") => make(\"button\", {\n\
\x20\x20type: \"button\", class: kind, \"data-key\": `${name} ${silence.id}`, \"aria-label\": `${name} ${words}`,\n\
\x20\x20click: ({ currentTarget }) => does(silence, currentTarget),\n\
}, name);\n\
\n\
const rowOf = (silence) => {\n\
\x20\x20const { id, status, matchers, endsAt, createdBy, comment } = silence, words = short(matchersWords(silence));\n\
\x20\x20const chips = matchers.slice(0, MOST_CHIPS).flatMap((matcher) => [chipOf(matcher), \" \"]);\n\
\x20\x20const acts = hasEnded(silence)\n\
\x20\x20\x20\x20? [make(\"a\", { class: \"button\", href: editLinkOf(id), \"data-key\": `Recreate ${id}`, \"aria-label\": `Recreate ${words}` }, \"Recreate\")]\n\
\x20\x20\x20\x20: [rowButton(\"Extend\", extend, silence, words), rowButton(\"Expire\", expire, silence, words, \"end\")];\n\
\x20\x20return make(\"li\", {},\n\
\x20\x20\x20\x20make(\"a\", { class: \"chips\", href: linkOf(id), \"data-key\": id }, ...chips, matchers.length > MOST_CHIPS ? \"…\" : matchers.length ? \"\" : \"no matchers\"),\n\
\x20\x20\x20\x20make(\"p\", {}, make(\"span\", { class: `lasting ${status.state}` }, lastsWords(silence)), \" \",\n\
\x20\x20\x20\x20\x20\x20make(\"time\", { class: \"dim\", datetime: endsAt }, soonWords(endsAt))),\n\
\x20\x20\x20\x20make(\"p\", { class: \"said\" }, make(\"b\", {}, ...creatorOf(short(createdBy))), \" \", make(\"span\", { class: \"dim\" }, ...commentOf(short(comment)))),\n\
\x20\x20\x20\x20make(\"div\", { class: \"acts\" }, ...acts));\n\
};\n\
\n\
const countsOf = (silences) => {\n\
\x20\x20const counts = Object.fromEntries(STATES.map((state) => [state, 0]));\n\
\x20\x20for (const { status } of silences) counts[status.state] += 1;\n\
\x20\x20return counts;\n\
};\n\
\n\
// A link to another state or page of the list, with the filter and order of that moment.\n\
const linkTo = (others, words, more) => make(\"a\", { class: \"button\", \"data-others\": JSON.stringify(others), ...more }, words);\n\
const aimLinks = () => {\n\
\x20\x20for (const link of document.querySelectorAll(\"[data-others]\")) link.href = listLink(JSON.parse(link.dataset.others));\n\
\x20\x20at(\"new\").href = newLink();\n\
};\n\
\n\
const drawStates = (counts) => at(\"states\").replaceChildren(...STATES.map((state) => linkTo(\n\
\x20\x20{ state, page: 0 },\n\
\x20\x20`${state[0].toUpperCase()}${state.slice(1)}: ${counts[state].toLocaleString()}`,\n\
\x20\x20{ \"data-key\": state, ...(state === list.state && { \"aria-current\": \"page\" }) },\n\
)));\n\
\n\
// Links to the next pages, above and below the rows.\n\
const drawPages = (from, to, count, last) => {\n\
\x20\x20for (const nav of document.querySelectorAll(\".pages\")) {\n\
\x20\x20\x20\x20const turned = (by, words) => (list.page + by < 0 || list.page + by > last\n\
\x20\x20\x20\x20\x20\x20? make(\"span\", { class: \"button off\" }, words)\n\
\x20\x20\x20\x20\x20\x20: linkTo({ page: list.page + by }, words, { \"data-key\": `${words}, ${nav.ariaLabel}` }));\n\
\x20\x20\x20\x20const range = `${(from + 1).toLocaleString()} to ${to.toLocaleString()} of ${count.toLocaleString()}`;\n\
\x20\x20\x20\x20nav.replaceChildren(turned(-1, \"Previous page\"), make(\"span\", { class: \"range\" }, range), turned(1, \"Next page\"));\n\
\x20\x20\x20\x20nav.hidden = last === 0;\n\
\x20\x20}\n\
};\n\
\n\
const listWords = (count) => {\n\
\x20\x20const silences = `${list.state} ${count === 1 ? \"silence\" : \"silences\"}`;\n\
\x20\x20return `${count ? count.toLocaleString() : \"No\"} ${silences}${list.filter.trim() ? \" for this filter\" : \"\"}`;\n\
};\n\
\n\
// Draws the list. Rows that are the same stay, and so does the focus. A refresh moves nothing below the mouse.\n\
const drawList = (forced) => {\n\
\x20\x20const passed = passing(), silences = sorted(passed.filter(({ status }) => status.state === list.state));\n\
\x20\x20const last = Math.max(0, Math.ceil(silences.length / MOST_ROWS) - 1);\n\
\x20\x20list.page = Math.min(list.page, last);\n\
\x20\x20const from = list.page * MOST_ROWS, rows = silences.slice(from, from + MOST_ROWS);\n\
\x20\x20const counts = countsOf(passed), drawn = JSON.stringify([listLink(), counts, rows]);\n\
\x20\x20if (drawn === list.drawn) {\n\
\x20\x20\x20\x20rows.forEach((silence, place) => { at(\"rows\").children[place].querySelector(\".lasting\").textContent = lastsWords(silence); });\n\
\x20\x20\x20\x20return;\n\
\x20\x20}\n\
\x20\x20if (!forced && waits(\"rows\", drawList)) return;\n\
\x20\x20list.drawn = drawn;\n\
\x20\x20const focused = document.activeElement;\n\
\x20\x20at(\"list-head\").textContent = listWords(silences.length);\n\
\x20\x20at(\"sort\").value = sortOf(list);\n\
\x20\x20drawStates(counts);\n\
\x20\x20at(\"rows\").replaceChildren(...rows.map(rowOf));\n\
\x20\x20drawPages(from, from + rows.length, silences.length, last);\n\
\x20\x20aimLinks();\n\
\x20\x20if (!focused?.isConnected) drawnAgain(focused)?.focus({ preventScroll: true });\n\
};\n\
\n\
// Lists by what is typed or chosen now.\n\
const search = async () => {\n\
\x20\x20clearTimeout(typing);\n\
\x20\x20if (at(\"filter\").value === list.filter && at(\"sort\").value === sortOf(list)) return;\n\
\x20\x20if (at(\"sort\").value !== sortOf(list)) list.sort = at(\"sort\").value;\n\
\x20\x20Object.assign(list, { filter: at(\"filter\").value, page: 0 });\n\
\x20\x20history.replaceState(null, \"\", listLink());\n\
\x20\x20aimLinks();\n\
\x20\x20if (list.asked === JSON.stringify(filtersOf(list.filter))) drawList(true);\n\
\x20\x20else await look(true);\n\
\x20\x20if (list.asked !== null && route.view === \"list\") say(at(\"list-head\").textContent);\n\
};\n\
\n\
const openList = (query) => {\n\
\x20\x20const [state, sort] = [query.get(\"state\"), query.get(\"sort\")], page = Number(query.get(\"page\") ?? 1) - 1;\n\
\x20\x20Object.assign(list, {\n\
\x20\x20\x20\x20state: STATES.includes(state) ? state : \"active\",\n\
\x20\x20\x20\x20sort: [\"end\", \"start\", \"creator\"].includes(sort) ? sort : \"\",\n\
\x20\x20\x20\x20filter: query.get(\"filter\") ?? \"\",\n\
\x20\x20\x20\x20page: Number.isSafeInteger(page) && page > 0 ? page : 0,\n\
\x20\x20});\n\
\x20\x20if (at(\"filter\").value !== list.filter) at(\"filter\").value = list.filter;\n\
\x20\x20aimLinks();\n\
\x20\x20if (list.asked === JSON.stringify(filtersOf(list.filter)) && list.drawn) drawList(true);\n\
\x20\x20else clearList(\"Silences\");\n\
};\n\
\n\
// ---- the silences that mute an alert\n\
\n\
const openAlert = (query) => {\n\
\x20\x20at(\"labels\").value = query.get(\"labels\") ?? \"\";\n\
\x20\x20blame(at(\"labels\"), \"\");\n\
\x20\x20at(\"muted\").textContent = \"\";\n\
\x20\x20at(\"muting\").replaceChildren();\n\
\x20\x20if (at(\"labels\").value) judge();\n\
};\n\
\n\
// How many silences mute an alert, of which so many are shown and more aren't.\n\
const mutingWords = (shown, more) => {\n\
\x20\x20if (shown === 0) return \"No silence mutes it.\";\n\
\x20\x20if (shown + more === 1) return \"1 silence mutes it:\";\n\
\x20\x20return more === 0 ? `${shown} silences mute it:` : `${shown + more} silences mute it; the first ${shown}:`;\n\
};\n\
\n\
// Asks the member which of these alerts are muted, and by which silences. It decides nothing: they are told as ones that have ended.\n\
const mutedOf = async (alerts) => {\n\
\x20\x20const told = alerts.map((labels) => ({ status: \"resolved\", labels }));\n\
\x20\x20return (await post(\"v1/decide?wait=false\", { groupKey: \"page\", receiver: \"page\", alerts: told })).muted;\n\
};\n\
\n\
const judge = () => act(at(\"find\"), async () => {\n\
\x20\x20const labels = labelsIn(at(\"labels\").value), here = route;\n\
\x20\x20if (!labels) throw new Fault(\"Write the labels as alertname=\\\"Down\\\", instance=\\\"db1:9100\\\", or as JSON.\", \"labels\");\n\
\x20\x20const [{ silencedBy = [], silencedByMore = 0 } = {}] = await mutedOf([labels]);\n\
\x20\x20const silences = await Promise.all(silencedBy.map((id) => ask(pathOf(id))));\n\
\x20\x20if (here !== route) return;\n\
\x20\x20blame(at(\"labels\"), \"\");\n\
\x20\x20at(\"muting\").replaceChildren(...silences.map(rowOf));\n\
\x20\x20at(\"muted\").textContent = mutingWords(silences.length, silencedByMore);\n\
}, ({ word }) => (word === \"labels\" ? at(\"labels\") : null));\n\
\n\
const find = () => {\n\
\x20\x20if (!isFilled(at(\"judge\"))) return;\n\
\x20\x20const place = `#/alert?${new URLSearchParams({ labels: at(\"labels\").value })}`;\n\
\x20\x20if (place === location.hash) judge();\n\
\x20\x20else location.hash = place;\n\
};\n\
\n\
// ---- one silence\n\
\n\
const one = { silence: null, drawn: \"\" };\n\
\n\
const loadOne = async (mine, forced) => {\n\
\x20\x20const silence = await ask(pathOf(route.id));\n\
\x20\x20if (mine === turn) drawOne(silence, forced);\n\
};\n\
\n\
// How many of the last messages' alerts a silence mutes; nothing if none.\n\
const mutesWords = async ({ id, status: { state } }) => {\n\
\x20\x20const alerts = state === \"active\" ? await ask(\"v1/alerts\") : [], count = alerts.length;\n\
\x20\x20if (count === 0) return \"\";\n\
\x20\x20const muted = await mutedOf(alerts), isNamed = ({ silencedBy }) => silencedBy.includes(id);\n\
\x20\x20const least = muted.some((it) => it.silencedByMore > 0 && !isNamed(it)) ? \"at least \" : \"\";\n\
\x20\x20return `Mutes ${least}${muted.filter(isNamed).length} of ${count} ${count === 1 ? \"alert\" : \"alerts\"} of the last messages.`;\n\
};\n\
\n\
const tellMutes = async (silence) => {\n\
\x20\x20const words = await mutesWords(silence).catch(() => \"\");\n\
\x20\x20if (silence === one.silence) at(\"mutes\").textContent = words;\n\
};\n\
\n\
const drawOne = (silence, forced) => {\n\
\x20\x20at(\"lasting\")?.replaceChildren(lastsWords(one.silence));\n\
\x20\x20const drawn = JSON.stringify(silence);\n\
\x20\x20if (drawn === one.drawn || (!forced && one.drawn && waits(\"one\", () => drawOne(silence, true)))) return;\n\
\x20\x20Object.assign(one, { silence, drawn });\n\
\x20\x20at(\"one-head\").textContent = `Silence of ${short(matchersWords(silence))}`;\n\
\x20\x20document.title = at(\"one-head\").textContent;\n\
\x20\x20const { id, status: { state } } = silence, ended = hasEnded(silence);\n\
\x20\x20const moment = (text) => make(\"time\", { datetime: text }, momentWords(text));\n\
\x20\x20const facts = [\n\
\x20\x20\x20\x20[\"State\", make(\"span\", { class: state }, state), \", \", make(\"span\", { id: \"lasting\" }, lastsWords(silence))],\n\
\x20\x20\x20\x20[\"Matchers\", make(\"ul\", {}, ...silence.matchers.map((matcher) => make(\"li\", {}, make(\"code\", {}, written(matcherWords(matcher))))))],\n\
\x20\x20\x20\x20[\"Creator\", ...creatorOf(silence.createdBy)],\n\
\x20\x20\x20\x20[\"Comment\", ...commentOf(silence.comment)],\n\
\x20\x20\x20\x20[\"Start\", moment(silence.startsAt)],\n\
\x20\x20\x20\x20[\"End\", moment(silence.endsAt)],\n\
\x20\x20\x20\x20[\"Updated\", moment(silence.updatedAt)],\n\
\x20\x20\x20\x20[\"ID\", make(\"a\", { href: linkOf(id) }, id)],\n\
\x20\x20];\n\
\x20\x20at(\"facts\").replaceChildren(...facts.flatMap(([name, ...what]) => [make(\"dt\", {}, name), make(\"dd\", {}, ...what)]));\n\
\x20\x20for (const button of [\"extend\", \"edit-it\", \"expire\"]) at(button).hidden = ended;\n\
\x20\x20at(\"recreate\").hidden = !ended;\n\
\x20\x20at(\"edit-it\").href = at(\"recreate\").href = editLinkOf(id);\n\
\x20\x20tellMutes(silence);\n\
};\n\
\n\
const openOne = () => {\n\
\x20\x20Object.assign(one, { silence: null, drawn: \"\" });\n\
\x20\x20at(\"facts\").replaceChildren();\n\
\x20\x20at(\"mutes\").textContent = \"\";\n\
\x20\x20at(\"one-head\").textContent = \"Silence\";\n\
\x20\x20for (const id of [\"extend\", \"edit-it\", \"expire\", \"recreate\"]) at(id).hidden = true;\n\
\x20\x20at(\"back\").href = listLink();\n\
};\n\
\n\
// ---- a silence that is created or updated\n\
\n\
// The silence that is updated, or null; and whether the end counts, or the duration.\n\
const form = { former: null, exact: false };\n\
\n\
// What each field began with: what it shows, the whole text, and what was put there.\n\
const begun = new WeakMap();\n\
const put = (field, text, shown = text) => {\n\
\x20\x20field.value = shown;\n\
\x20\x20begun.set(field, [field.value, text, shown]);\n\
};\n\
const isKept = (field) => field.value === begun.get(field)[0];\n\
const textOf = (field) => (isKept(field) ? begun.get(field)[1] : field.value);\n\
const nameOf = (field) => (isKept(field) ? textOf(field) : field.value.trim());\n\
const stateOf = (field) => [...begun.get(field).slice(1), field.value];\n\
const restore = (field, [text, shown, value]) => {\n\
\x20\x20put(field, text, shown);\n\
\x20\x20if (value !== undefined) field.value = value;\n\
};\n\
\n\
// A moment as a field shows it: to the minute, in the browser's time zone.\n\
const minuteOf = (moment) => {\n\
\x20\x20const date = new Date(moment);\n\
\x20\x20return new Date(date - 60000 * date.getTimezoneOffset()).toISOString().slice(0, 16);\n\
};\n\
const momentState = (moment) => [moment, minuteOf(moment)];\n\
const timeOf = (id) => Date.parse(textOf(at(id)));\n\
const isoOf = (time) => new Date(time).toISOString();\n\
\n\
let rowCount = 0;\n\
\n\
// A field for a value; a text area if one line can't show it, with the quoted value below.\n\
const valueField = (id, text) => {\n\
\x20\x20const plain = { id, name: \"value\", autocomplete: \"off\", spellcheck: \"false\", \"aria-describedby\": `${id}-hint ${id}-fault` };\n\
\x20\x20return /[\\n\\r]|^\\s|\\s$/.test(text) ? make(\"textarea\", { rows: 1, ...plain }) : make(\"input\", plain);\n\
};\n\
\n\
const addMatcher = ({ name, operator, value }, before = null) => {\n\
\x20\x20const number = ++rowCount, ids = [`label${number}`, `operator${number}`, `value${number}`];\n\
\x20\x20const plain = { autocomplete: \"off\", spellcheck: \"false\", required: \"\" };\n\
\x20\x20const label = make(\"input\", { id: ids[0], name: \"label\", ...plain, \"aria-describedby\": `${ids[0]}-fault`, paste: (event) => paste(event, row) });\n\
\x20\x20const select = make(\"select\", { id: ids[1], name: \"operator\" }, ...OPERATORS.map((it) => make(\"option\", {}, it)));\n\
\x20\x20const field = valueField(ids[2], value[0]), hint = make(\"small\", { id: `${ids[2]}-hint` });\n\
\x20\x20const showQuoted = () => { hint.replaceChildren(...(field.matches(\"textarea\") ? [\"As \", written(quoted(textOf(field)))] : [])); };\n\
\x20\x20const fault = (id) => make(\"p\", { id: `${id}-fault`, class: \"fault\" });\n\
\x20\x20const row = make(\"div\", { class: \"line\", role: \"group\" },\n\
\x20\x20\x20\x20make(\"div\", { class: \"wide\" }, make(\"label\", { for: ids[0] }, \"Label\"), label, fault(ids[0])),\n\
\x20\x20\x20\x20make(\"div\", { class: \"operator\" }, make(\"label\", { for: ids[1] }, \"Operator\"), select),\n\
\x20\x20\x20\x20make(\"div\", { class: \"wide\" }, make(\"label\", { for: ids[2] }, \"Value\"), field, hint, fault(ids[2])),\n\
\x20\x20\x20\x20make(\"button\", { type: \"button\", click: () => removeMatcher(row) }, \"Remove\"));\n\
\x20\x20restore(label, name);\n\
\x20\x20restore(select, operator);\n\
\x20\x20restore(field, value);\n\
\x20\x20field.addEventListener(\"input\", showQuoted);\n\
\x20\x20showQuoted();\n\
\x20\x20at(\"matchers\").insertBefore(row, before);\n\
\x20\x20numberMatchers();\n\
\x20\x20return row;\n\
};\n\
\n\
const fieldsOf = (row) => [...row.querySelectorAll(\"input, select, textarea\")];\n\
const rowState = (matcher) => ({ name: [matcher.name], operator: [operatorOf(matcher)], value: [matcher.value] });\n\
const EMPTY = rowState({ name: \"\", value: \"\", isRegex: false, isEqual: true });\n\
\n\
const numberMatchers = () => {\n\
\x20\x20const rows = [...at(\"matchers\").children];\n\
\x20\x20rows.forEach((row, place) => {\n\
\x20\x20\x20\x20row.setAttribute(\"aria-label\", `Matcher ${place + 1}`);\n\
\x20\x20\x20\x20row.querySelector(\"button\").setAttribute(\"aria-label\", `Remove matcher ${place + 1}`);\n\
\x20\x20\x20\x20row.querySelector(\"button\").hidden = rows.length === 1;\n\
\x20\x20});\n\
};\n\
\n\
const removeMatcher = (row) => {\n\
\x20\x20row.remove();\n\
\x20\x20numberMatchers();\n\
\x20\x20keepDraft();\n\
\x20\x20at(\"add\").focus();\n\
};\n\
\n\
// A list of matchers that is pasted into a label becomes rows.\n\
const paste = (event, row) => {\n\
\x20\x20const matchers = matchersIn(event.clipboardData.getData(\"text\"));\n\
\x20\x20if (matchers.length === 0) return;\n\
\x20\x20event.preventDefault();\n\
\x20\x20const rows = matchers.map((matcher) => addMatcher(rowState(matcher), row.nextSibling)).reverse();\n\
\x20\x20rows.forEach((it) => row.after(it));\n\
\x20\x20const [label, , value] = fieldsOf(row);\n\
\x20\x20if (!label.value && !value.value) row.remove();\n\
\x20\x20numberMatchers();\n\
\x20\x20checkForm();\n\
\x20\x20keepDraft();\n\
\x20\x20fieldsOf(rows[0])[2].focus();\n\
};\n\
\n\
const matchersOfForm = () => [...at(\"matchers\").children].map((row) => {\n\
\x20\x20const [label, { value: operator }, field] = fieldsOf(row);\n\
\x20\x20return { name: nameOf(label), value: textOf(field), isRegex: operator.endsWith(\"~\"), isEqual: !operator.startsWith(\"!\") };\n\
});\n\
\n\
// What the form begins with: a silence, or the matchers of a new one.\n\
const beginning = (silence, matchers) => {\n\
\x20\x20const updates = silence && !hasEnded(silence), author = kept(forLong, \"author\");\n\
\x20\x20return {\n\
\x20\x20\x20\x20former: updates ? silence : null,\n\
\x20\x20\x20\x20exact: Boolean(updates),\n\
\x20\x20\x20\x20matchers: (silence?.matchers ?? matchers).map(rowState),\n\
\x20\x20\x20\x20starts: updates ? momentState(silence.startsAt) : [\"\"],\n\
\x20\x20\x20\x20ends: updates ? momentState(silence.endsAt) : [\"\"],\n\
\x20\x20\x20\x20duration: [updates ? spanWords(Date.parse(silence.endsAt) - Date.parse(silence.startsAt), UNITS.length) : \"2 h\"],\n\
\x20\x20\x20\x20author: [(updates ? silence.createdBy : author || silence?.createdBy) ?? \"\"],\n\
\x20\x20\x20\x20comment: [silence?.comment ?? \"\"],\n\
\x20\x20\x20\x20head: updates ? \"Edit silence\" : silence ? \"Recreate silence\" : \"New silence\",\n\
\x20\x20};\n\
};\n\
\n\
const SINGLE = [\"starts\", \"ends\", \"duration\", \"author\", \"comment\"];\n\
\n\
const fillForm = (state) => {\n\
\x20\x20const { former, exact, matchers, head } = state;\n\
\x20\x20Object.assign(form, { former, exact });\n\
\x20\x20at(\"matchers\").replaceChildren();\n\
\x20\x20for (const matcher of matchers.length ? matchers : [EMPTY]) addMatcher(matcher);\n\
\x20\x20for (const id of SINGLE) {\n\
\x20\x20\x20\x20restore(at(id), state[id]);\n\
\x20\x20\x20\x20blame(at(id), \"\");\n\
\x20\x20}\n\
\x20\x20at(\"starts\").required = Boolean(former);\n\
\x20\x20at(\"starts-hint\").textContent = former ? \"In this browser's time zone\" : \"Empty: at once\";\n\
\x20\x20if (!exact) moveEnd();\n\
\x20\x20checkForm();\n\
\x20\x20offerName();\n\
\x20\x20at(\"edit-head\").textContent = document.title = head;\n\
\x20\x20at(\"save\").textContent = former ? \"Update\" : \"Create\";\n\
\x20\x20at(\"leave\").href = route.id ? linkOf(route.id) : listLink();\n\
};\n\
\n\
// Who changes somebody else's silence may add their name; the creator stays.\n\
const offerName = () => {\n\
\x20\x20const name = kept(forLong, \"author\"), addition = `, changed by ${name}`;\n\
\x20\x20at(\"sign\").hidden = !form.former || !name || form.former.createdBy === name || at(\"author\").value.endsWith(addition);\n\
\x20\x20at(\"sign\").textContent = `Add “${addition}”`;\n\
};\n\
const addName = () => {\n\
\x20\x20at(\"author\").value += `, changed by ${kept(forLong, \"author\")}`;\n\
\x20\x20offerName();\n\
\x20\x20keepDraft();\n\
\x20\x20at(\"author\").focus();\n\
};\n\
\n\
// Keeps what is in a form, by its address, until it is posted or cancelled.\n\
const draftKey = () => `draft ${location.hash}`;\n\
const keepDraft = () => {\n\
\x20\x20const matchers = [...at(\"matchers\").children].map((row) => {\n\
\x20\x20\x20\x20const [name, operator, value] = fieldsOf(row).map(stateOf);\n\
\x20\x20\x20\x20return { name, operator, value };\n\
\x20\x20});\n\
\x20\x20const singles = Object.fromEntries(SINGLE.map((id) => [id, stateOf(at(id))]));\n\
\x20\x20keep(forThisTab, draftKey(), JSON.stringify({ ...form, matchers, ...singles, head: at(\"edit-head\").textContent }));\n\
};\n\
const dropDraft = () => drop(forThisTab, draftKey());\n\
const draft = () => JSON.parse(kept(forThisTab, draftKey()));\n\
\n\
// The end follows start and duration, and the duration follows the end.\n\
const startTime = () => timeOf(\"starts\") || Date.now();\n\
const fits = (length) => length > 0 && startTime() + length < LAST;\n\
const moveEnd = () => {\n\
\x20\x20const length = spanOf(at(\"duration\").value);\n\
\x20\x20form.exact = false;\n\
\x20\x20if (fits(length)) put(at(\"ends\"), ...momentState(isoOf(startTime() + length)));\n\
};\n\
const moveDuration = () => {\n\
\x20\x20const length = timeOf(\"ends\") - startTime();\n\
\x20\x20form.exact = true;\n\
\x20\x20if (fits(length)) at(\"duration\").value = spanWords(length, UNITS.length);\n\
};\n\
\n\
// Tells the fields what is wrong with them.\n\
const checkForm = () => {\n\
\x20\x20for (const row of at(\"matchers\").children) {\n\
\x20\x20\x20\x20const [label] = fieldsOf(row);\n\
\x20\x20\x20\x20label.setCustomValidity(isKept(label) || !label.value || isLabel(label.value.trim()) ? \"\" : \"Write the name of a label: letters, digits, _ and :. A list of matchers is split if it is pasted.\");\n\
\x20\x20}\n\
\x20\x20at(\"duration\").setCustomValidity(form.exact || fits(spanOf(at(\"duration\").value)) ? \"\" : \"Write a duration, as 45m, 2h or 1d 12h.\");\n\
\x20\x20at(\"ends\").setCustomValidity(!form.exact || timeOf(\"ends\") > startTime() ? \"\" : REFUSALS[\"end not after start\"]);\n\
};\n\
\n\
// The times of the form. A duration counts from the post if no start is given.\n\
const momentsOfForm = () => {\n\
\x20\x20const given = at(\"starts\").value !== \"\";\n\
\x20\x20const startsAt = given ? isoOf(timeOf(\"starts\")) : AT_ONCE;\n\
\x20\x20return { startsAt, endsAt: isoOf(given || form.exact ? timeOf(\"ends\") : Date.now() + spanOf(at(\"duration\").value)) };\n\
};\n\
\n\
const silenceOfForm = () => ({\n\
\x20\x20matchers: matchersOfForm(),\n\
\x20\x20...momentsOfForm(),\n\
\x20\x20createdBy: nameOf(at(\"author\")),\n\
\x20\x20comment: textOf(at(\"comment\")),\n\
});\n\
\n\
// The field that a refusal of the form is about, or null.\n\
const fieldOfRefusal = (fault) => {\n\
\x20\x20const rows = [...at(\"matchers\").children].map(fieldsOf), broken = brokenOf(matchersOfForm());\n\
\x20\x20const first = Math.max(0, rows.findIndex(([, operator]) => operator.value.endsWith(\"~\")));\n\
\x20\x20if (fault.word === \"bad pattern\" && broken) fault.message = broken.words;\n\
\x20\x20const fields = {\n\
\x20\x20\x20\x20\"bad pattern\": rows[broken?.place ?? first][2],\n\
\x20\x20\x20\x20\"all matchers match the empty text\": rows[0][2],\n\
\x20\x20\x20\x20\"empty label name\": rows[0][0],\n\
\x20\x20\x20\x20\"end not after start\": at(\"ends\"),\n\
\x20\x20\x20\x20\"end in the past\": at(\"ends\"),\n\
\x20\x20};\n\
\x20\x20return fields[fault.word] ?? null;\n\
};\n\
\n\
const save = async () => {\n\
\x20\x20if (!isFilled(at(\"form\"))) return;\n\
\x20\x20await act(at(\"save\"), async () => {\n\
\x20\x20\x20\x20const { former } = form, mine = silenceOfForm(), isNamed = !isKept(at(\"author\"));\n\
\x20\x20\x20\x20const sent = former ? await updated(former, mine) : mine;\n\
\x20\x20\x20\x20if (!sent) return;\n\
\x20\x20\x20\x20const { silenceID } = await post(SILENCES, sent);\n\
\x20\x20\x20\x20if (!former && isNamed) keep(forLong, \"author\", mine.createdBy);\n\
\x20\x20\x20\x20dropDraft();\n\
\x20\x20\x20\x20await settled(silenceID, !former ? \"The silence is created\" : silenceID === former.id ? \"The silence is updated\"\n\
\x20\x20\x20\x20\x20\x20: hasEnded(former) || !sent.id ? \"Another silence is created\" : \"Another silence is created, and the old one has ended\");\n\
\x20\x20}, fieldOfRefusal);\n\
};\n\
\n\
// Returns what is posted for an update: what wasn't changed here is as the member has it. Null to leave it as it is.\n\
const updated = async (former, mine) => {\n\
\x20\x20const now = await agreed(former, \"Update it all the same\", \"Create another\");\n\
\x20\x20if (!now) return null;\n\
\x20\x20if (hasEnded(now)) return mine;\n\
\x20\x20const parts = Object.keys(PARTS).map((part) => [part, isSame(part, mine, former) ? now[part] : mine[part]]);\n\
\x20\x20return { id: former.id, ...Object.fromEntries(parts) };\n\
};\n\
\n\
const openForm = async (query) => {\n\
\x20\x20const here = route, saved = draft();\n\
\x20\x20at(\"form\").hidden = true;\n\
\x20\x20at(\"edit-head\").textContent = \"Silence\";\n\
\x20\x20const matchers = filtersOf(query.get(\"filter\") ?? \"\").map(matcherOf);\n\
\x20\x20const state = saved ?? beginning(route.id ? await ask(pathOf(route.id)) : null, matchers);\n\
\x20\x20if (here !== route) return;\n\
\x20\x20at(\"form\").hidden = false;\n\
\x20\x20fillForm(state);\n\
\x20\x20if (saved) say(\"This is what you had begun; Cancel drops it\");\n\
};\n\
\n\
// ---- what is shown\n\
\n\
// The place of the page, as in Alertmanager's own. Only the newest look at the member draws.\n\
let route = { view: \"list\", id: \"\" }, turn = 0, timer, typing, scrolling;\n\
\n\
const routeOf = (hash) => {\n\
\x20\x20const [path, query] = hash.replace(/^#\\/?/, \"\").split(/\\?(.*)/s);\n\
\x20\x20const [first, second, third] = path.split(\"/\"), place = { view: \"list\", id: \"\", query: new URLSearchParams(query ?? \"\") };\n\
\x20\x20if (path === \"alert\") return { ...place, view: \"alert\" };\n\
\x20\x20if (path === \"silences/new\") return { ...place, view: \"edit\" };\n\
\x20\x20const [view, id] = second === \"edit\" ? [\"edit\", third] : [\"one\", second];\n\
\x20\x20if (!/^silences?$/.test(first) || !id) return place;\n\
\x20\x20try {\n\
\x20\x20\x20\x20return { ...place, view, id: decodeURIComponent(id) };\n\
\x20\x20} catch {\n\
\x20\x20\x20\x20return place;\n\
\x20\x20}\n\
};\n\
\n\
// Asks the member anew, and again later: the later, the longer it took.\n\
const look = async (forced = false) => {\n\
\x20\x20clearTimeout(timer);\n\
\x20\x20const mine = ++turn, began = performance.now();\n\
\x20\x20const loads = { list: loadList, one: loadOne }[route.view];\n\
\x20\x20try {\n\
\x20\x20\x20\x20await Promise.all([lookAtMember(), loads?.(mine, forced)]);\n\
\x20\x20\x20\x20if (mine === turn && toldByLook) hush();\n\
\x20\x20} catch (fault) {\n\
\x20\x20\x20\x20if (mine === turn) tell(fault, true);\n\
\x20\x20}\n\
\x20\x20if (mine === turn && !document.hidden) timer = setTimeout(look, Math.max(EVERY, 50 * (performance.now() - began)));\n\
};\n\
\n\
// Shows what the address names, scrolled as it was when it was left.\n\
const shown = async () => {\n\
\x20\x20const { scroll = 0 } = history.state ?? {};\n\
\x20\x20route = routeOf(location.hash);\n\
\x20\x20for (const view of VIEWS) at(view).hidden = view !== route.view;\n\
\x20\x20say(\"\");\n\
\x20\x20hush();\n\
\x20\x20document.title = \"Silences\";\n\
\x20\x20mouse.later = null;\n\
\x20\x20const opens = { list: openList, alert: openAlert, one: openOne, edit: openForm }[route.view];\n\
\x20\x20const here = route;\n\
\x20\x20await Promise.resolve(opens(route.query)).catch(tell);\n\
\x20\x20scrollTo(0, scroll);\n\
\x20\x20const isShort = scrollY < scroll;\n\
\x20\x20await look(true);\n\
\x20\x20if (isShort && here === route) scrollTo(0, scroll);\n\
};\n\
\n\
// Back at the list, focuses the row that one came from.\n\
const moved = async () => {\n\
\x20\x20const from = route, { page } = list, shows = shown();\n\
\x20\x20const row = route.view === \"list\" && history.state && drawnAgain({ dataset: { key: from.id } });\n\
\x20\x20if (from.view !== route.view || from.id !== route.id || page !== list.page) (row || at(`${route.view}-head`)).focus({ preventScroll: true });\n\
\x20\x20await shows;\n\
};\n\
\n\
// The mouse: when it moved last, and what is drawn once it leaves.\n\
const mouse = { over: null, moved: 0, place: \"\", later: null };\n\
const pointsAt = (id) => at(id).contains(mouse.over) && performance.now() - mouse.moved < RESTING;\n\
const waits = (id, later) => {\n\
\x20\x20if (at(\"asking\").open) return true;\n\
\x20\x20if (!pointsAt(id)) return false;\n\
\x20\x20Object.assign(mouse, { place: id, later });\n\
\x20\x20return true;\n\
};\n\
const follow = ({ pointerType, target, type }) => {\n\
\x20\x20if (pointerType !== \"mouse\") return;\n\
\x20\x20Object.assign(mouse, { over: type === \"pointerleave\" ? null : target, moved: performance.now() });\n\
\x20\x20const { later, place } = mouse;\n\
\x20\x20if (!later || pointsAt(place)) return;\n\
\x20\x20mouse.later = null;\n\
\x20\x20later(true);\n\
};\n\
\n\
const keepScroll = () => history.replaceState({ scroll: scrollY }, \"\");\n\
history.scrollRestoration = \"manual\";\n\
addEventListener(\"scroll\", () => {\n\
\x20\x20clearTimeout(scrolling);\n\
\x20\x20scrolling = setTimeout(keepScroll, 100);\n\
});\n\
addEventListener(\"hashchange\", moved);\n\
addEventListener(\"pagehide\", keepScroll);\n\
document.addEventListener(\"click\", ({ target }) => {\n\
\x20\x20if (!target.closest(\"a\")) return;\n\
\x20\x20if (route.view === \"list\") search();\n\
\x20\x20keepScroll();\n\
}, true);\n\
document.addEventListener(\"visibilitychange\", () => { if (document.hidden) clearTimeout(timer); else look(); });\n\
for (const type of [\"pointerover\", \"pointermove\", \"pointerleave\"]) document.documentElement.addEventListener(type, follow);\n\
const hear = (id, event, doing) => at(id).addEventListener(event, doing);\n\
const sent = (doing) => (event) => {\n\
\x20\x20event.preventDefault();\n\
\x20\x20doing();\n\
};\n\
hear(\"search\", \"submit\", sent(search));\n\
hear(\"filter\", \"input\", () => {\n\
\x20\x20clearTimeout(typing);\n\
\x20\x20typing = setTimeout(search, TYPING);\n\
});\n\
hear(\"sort\", \"change\", search);\n\
hear(\"judge\", \"submit\", sent(find));\n\
hear(\"extend\", \"click\", () => extend(one.silence, at(\"extend\")));\n\
hear(\"expire\", \"click\", () => expire(one.silence, at(\"expire\")));\n\
hear(\"keep\", \"click\", () => answer(false));\n\
hear(\"go\", \"click\", () => answer(true));\n\
hear(\"asking\", \"close\", () => { if (!at(\"asking\").open) answer(false); });\n\
hear(\"add\", \"click\", () => {\n\
\x20\x20fieldsOf(addMatcher(EMPTY))[0].focus();\n\
\x20\x20keepDraft();\n\
});\n\
hear(\"sign\", \"click\", addName);\n\
hear(\"leave\", \"click\", dropDraft);\n\
hear(\"form\", \"submit\", sent(save));\n\
for (const field of [\"starts\", \"duration\"]) hear(field, \"input\", moveEnd);\n\
hear(\"ends\", \"input\", moveDuration);\n\
hear(\"form\", \"input\", ({ target }) => {\n\
\x20\x20checkForm();\n\
\x20\x20offerName();\n\
\x20\x20if (!target.validationMessage) blame(target, \"\");\n\
\x20\x20keepDraft();\n\
});\n\
shown();\n\
</script>\n\
</body>\n\
</html>\n\
";
