//! What is the same in all pages: how they open, and their style, in light and in dark.

/// The first words of a page, before the hash of its script.
pub(crate) const OPENING: &str = "<!DOCTYPE html>
<html lang='en'>
<head>
<meta charset='utf-8'>
<meta http-equiv='Content-Security-Policy' \
content=\"default-src 'none'; style-src 'unsafe-inline'; script-src '";

/// Behind the hash, and before the title.
pub(crate) const TITLE: &str = "'\">
<meta name='viewport' content='width=device-width, initial-scale=1'>
<title>";

/// Behind the title, and before the heading.
pub(crate) const STYLE: &str = "</title>
<style>
:root{color-scheme:light dark;--paper:#fff;--ink:#1c1f23;--quiet:#59626d;--line:#d5dae0;\
--open:#fff1c2;--link:#0b57d0}
@media(prefers-color-scheme:dark){:root{--paper:#14171b;--ink:#dde1e6;--quiet:#a3acb6;\
--line:#3a414a;--open:#453a0e;--link:#8ab4f8}}
body{margin:0 auto;max-width:90rem;padding:1rem 1.5rem 3rem;background:var(--paper);\
color:var(--ink);font:15px/1.5 system-ui,sans-serif}
h1{font-size:1.35rem;margin:0}h2{font-size:1.1rem;margin:1.6rem 0 .5rem}
a{color:var(--link)}:focus-visible{outline:3px solid var(--link);outline-offset:2px}
header nav a{margin-right:1.2rem}#keys{color:var(--quiet);margin:.2rem 0}
#sheet{position:sticky;top:0;max-height:48vh;overflow:auto;background:var(--paper);\
border-bottom:1px solid var(--line)}
#sheet svg{display:block;cursor:pointer}
#mark{fill:#f5a300;fill-opacity:.14;stroke:#e08a00;stroke-width:1.5;pointer-events:none}
#places{max-height:6rem;overflow:auto}#places a{display:inline-block;min-width:2.2rem}
#places a[aria-current]{font-weight:bold;background:var(--open)}
pre{margin:0;font:13px/1.45 ui-monospace,monospace}
#trace{list-style:none;margin:0;padding:0}
#steps,#trace li{scroll-margin-top:49vh}
#trace li{padding:.3rem .5rem;border-top:1px solid var(--line)}
#trace li pre{white-space:pre-wrap;overflow-wrap:anywhere}
#trace li:target{background:var(--open)}
section>pre{overflow-x:auto}
.bars{margin:1rem 0;border-collapse:collapse}.bars caption{text-align:left;font-weight:bold}
.bars th,.bars td{padding:.1rem .9rem .1rem 0;text-align:left;font-weight:normal;\
white-space:nowrap;font-variant-numeric:tabular-nums}
.bars meter{width:6rem}
@media print{#sheet{position:static;max-height:none;overflow:visible}}
</style>
</head>
<body>
<header>
<h1>";

/// Behind the heading: the parts of a page, before its comparison is named.
pub(crate) const PARTS: &str = "</h1>
<nav aria-label='Parts'>
<a href='#picture'>Picture</a>
<a href='#steps'>Trace</a>
";

/// The comparison, as one of the parts.
pub(crate) const COMPARISON_LINK: &str = "<a href='#comparison'>Comparison</a>
";

/// The other parts, and the picture opens.
pub(crate) const PICTURE: &str = "<a href='#report'>Report</a>
</nav>
<p id='keys' hidden>Click in the picture to open a place; the keys left and right step through \
places.</p>
</header>
<main>
<div>
<h2 id='picture'>Picture</h2>
<div id='sheet'>
";

/// The picture ends, and the list of places opens.
pub(crate) const PLACES: &str = "</div>
<h2 id='steps'>Trace</h2>
<nav id='places' aria-label='Places'>
";

/// Before the number of the place that a link leads to, before that which is read, and behind it.
pub(crate) const LINK: &str = "<a href='#place-";

pub(crate) const LINK_NAME: &str = "'>";

pub(crate) const LINK_END: &str = "</a>
";

/// That list ends, and the trace opens.
pub(crate) const TRACE: &str = "</nav>
<ol id='trace'>
";

/// Before the number of a place of the trace, before its words, and behind them.
pub(crate) const BLOCK: &str = "<li id='place-";

pub(crate) const BLOCK_WORDS: &str = "'><pre>";

pub(crate) const BLOCK_END: &str = "</pre></li>
";

/// The trace ends.
pub(crate) const TRACE_END: &str = "</ol>
</div>
";

/// The comparison opens.
pub(crate) const COMPARISON: &str = "<section id='comparison'>
<h2>Comparison</h2>
<pre>";

/// The report opens.
pub(crate) const REPORT: &str = "<section id='report'>
<h2>Report</h2>
";

/// It ends.
pub(crate) const REPORT_END: &str = "</section>
";

/// The comparison ends.
pub(crate) const SECTION_END: &str = "</pre>
</section>
";

/// The end, but for the script.
pub(crate) const SCRIPT_OPENING: &str = "</main>
<script>";

/// The end.
pub(crate) const END: &str = "</script>
</body>
</html>
";
