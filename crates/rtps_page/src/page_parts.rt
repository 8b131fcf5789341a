//! The constant texts of a page, which `page/parts.py` makes of the files beside it.

/// What stands before the text.
pub(crate) const HEAD: &str = "\
<!DOCTYPE html>\n\
<html lang=\"en\">\n\
<head>\n\
<meta charset=\"utf-8\">\n\
<meta http-equiv=\"Content-Security-Policy\" content=\"default-src 'none'; style-src 'sha256-qp4E1iOvEK/V6rQsiZTz2r7N2d+h5RSxrfvCzBtCj20='; script-src 'sha256-hpmW3mDyoQhB9f0WRZW6RarG+nvTxqFH2yl+nJ5/Zek=' 'sha256-ITctgU4SinAQQYsXVflAZKVj6OUeisokZHBS2nZUUoI=' 'sha256-Vx6VTy5wvpj3yfcSndNxHG/3uKDNgV6xVj7tCWRM06Q=' 'sha256-mFxS9+ff4TQgIQahwChDhHPKTpmLHVQahvu0UUtd3oY=' 'sha256-0Ic07IyjN2XDWJx8ud6piX9l/xdS8hFAqJ759Fk9QXY=' 'sha256-bqD1pDnh3FecsfB1dPybatyiUe07MaQLprbU9Vx17Hk=' 'sha256-KJW8ewj2owtgq2X0t1e71PxlfuDlZihesH4Gkm9w2Rw=' 'sha256-RZFZmN4jOaiyhk7fpR0c+dJylwie/3D5m4tVYJeBxJ4=' 'sha256-2ELIcGH5E1pJxmMUXa4vBYSAMFL1BCId//7q11HXGjY=' 'sha256-4hayr4ho+P3uEsOvfW5UWOdhsscUbvieEAR57S2eHvA=' 'sha256-kVdnEU2vVvmrVFvfoaOWgyjH7vn7mLhAiHHOsUb7jwM=' 'sha256-U8nXqyZVjnGvIF6HaSEVDC+KYBCVvq8e9Wz863DtxAA=' 'sha256-Ng/qG/jczhEehaLvFM9UoDXYY2suV6XApjDWWpgKjqI=' 'sha256-cxD5CTsYS7stLUjzK5HtuohpAXHojrdZMq0X8VYauXM='; base-uri 'none'; form-action 'none'\">\n\
<meta name=\"viewport\" content=\"width=device-width, initial-scale=1\">\n\
<meta name=\"color-scheme\" content=\"light dark\">\n\
<meta name=\"referrer\" content=\"no-referrer\">\n\
<title>rtps-audit: a report</title>\n\
<style>:root {\n\
--sheet: #ffffff;\n\
--panel: #f3f5f7;\n\
--ink: #1a1d21;\n\
--faint: #55606b;\n\
--line: #cbd2da;\n\
--grid: #e3e7ec;\n\
--link: #0a54a8;\n\
--focus: #0a54a8;\n\
--unfounded: #a11528;\n\
--conflict: #7a259c;\n\
--open: #8a4700;\n\
--missed: #9a3b00;\n\
--complete: #17652f;\n\
--data: #0a54a8;\n\
--samples: #a9c8ec;\n\
--band: #d9dde2;\n\
--band-edge: #6b7681;\n\
--announced: #55606b;\n\
--acknowledged: #17652f;\n\
--mark: #b3122a;\n\
}\n\
@media screen and (prefers-color-scheme: dark) {\n\
:root:not(.printed) {\n\
--sheet: #14171a;\n\
--panel: #1e2328;\n\
--ink: #e7eaed;\n\
--faint: #a9b2bb;\n\
--line: #3b434b;\n\
--grid: #2a3036;\n\
--link: #85b9ff;\n\
--focus: #ffd166;\n\
--unfounded: #ff8f9a;\n\
--conflict: #dba0f5;\n\
--open: #ffb35c;\n\
--missed: #ff9d6b;\n\
--complete: #74d08f;\n\
--data: #85b9ff;\n\
--samples: #2f5580;\n\
--band: #343b43;\n\
--band-edge: #8b95a0;\n\
--announced: #a9b2bb;\n\
--acknowledged: #74d08f;\n\
--mark: #ff8f9a;\n\
}\n\
}\n\
* { box-sizing: border-box; }\n\
html {\n\
color: var(--ink);\n\
background: var(--sheet);\n\
font: 16px/1.45 system-ui, -apple-system, 'Segoe UI', 'DejaVu Sans', sans-serif;\n\
scroll-padding-top: 52px;\n\
}\n\
body { max-width: 1240px; margin: 0 auto; padding: 16px; overflow-wrap: break-word; }\n\
h1 { font-size: 1.6rem; line-height: 1.2; margin: 2px 0 4px; overflow-wrap: anywhere; }\n\
h2 { font-size: 1.25rem; margin: 26px 0 6px; }\n\
h3 { font-size: 1.05rem; margin: 0 0 6px; }\n\
h4 { font-size: 0.95rem; margin: 12px 0 4px; }\n\
p { margin: 0 0 6px; }\n\
ul { margin: 0; padding-left: 1.2em; }\n\
a { color: var(--link); }\n\
code, pre { font-family: ui-monospace, 'SF Mono', Consolas, 'DejaVu Sans Mono', monospace; font-size: 0.85em; }\n\
#text pre { overflow-x: auto; }\n\
.scripted #text { display: none; }\n\
:focus-visible { outline: 3px solid var(--focus); outline-offset: 2px; }\n\
section:focus { outline: none; }\n\
[hidden] { display: none !important; }\n\
.hidden { position: absolute; width: 1px; height: 1px; overflow: hidden; clip-path: inset(50%); white-space: nowrap; }\n\
.skip { position: absolute; left: -999px; }\n\
.skip:focus { left: 16px; top: 4px; background: var(--sheet); padding: 4px 8px; z-index: 3; }\n\
#program, #when { color: var(--faint); font-size: 0.9rem; }\n\
#program { margin: 0; }\n\
#when b { color: var(--ink); }\n\
.outcome { border: 1px solid var(--line); border-radius: 6px; padding: 10px 14px; margin: 10px 0 8px; background: var(--panel); }\n\
#outcome { display: inline; margin: 0; }\n\
.more-said { font-weight: 600; }\n\
#received { display: inline; margin: 0 0 0 8px; font-weight: 600; }\n\
#because { margin-top: 6px; columns: 2 420px; column-gap: 28px; }\n\
#hosts { list-style: none; padding: 0; font-size: 0.92rem; display: flex; flex-wrap: wrap; gap: 2px 24px; overflow-wrap: anywhere; }\n\
#bar {\n\
position: sticky;\n\
top: 0;\n\
z-index: 2;\n\
display: flex;\n\
gap: 4px 18px;\n\
padding: 8px 0;\n\
margin-top: 10px;\n\
background: var(--sheet);\n\
border-bottom: 1px solid var(--line);\n\
font-size: 0.92rem;\n\
overflow-x: auto;\n\
white-space: nowrap;\n\
}\n\
#bar a { text-decoration: none; font-weight: 600; padding: 2px; }\n\
#bar a:hover { text-decoration: underline; }\n\
.badge {\n\
display: inline-block;\n\
padding: 0 8px;\n\
border: 1.5px solid transparent;\n\
border-radius: 4px;\n\
font-size: 0.85rem;\n\
font-weight: 600;\n\
line-height: 1.5;\n\
white-space: nowrap;\n\
}\n\
.badge.unfounded { background: var(--unfounded); color: var(--sheet); }\n\
.badge.conflict { background: var(--conflict); color: var(--sheet); }\n\
.badge.open { background: var(--open); color: var(--sheet); }\n\
.badge.missed { border: 1.5px dashed var(--missed); color: var(--missed); }\n\
.badge.lost { border: 1.5px dashed var(--missed); color: var(--missed); }\n\
.badge.complete, .badge.clean { border-color: var(--complete); color: var(--complete); }\n\
.badge.outcome { font-size: 1.15rem; padding: 1px 12px; margin: 0; border: 0; }\n\
.badge.outcome.bad { background: var(--mark); color: var(--sheet); text-decoration: none; }\n\
.badge.outcome.good { background: var(--complete); color: var(--sheet); }\n\
#verdicts { display: flex; flex-wrap: wrap; gap: 8px; margin: 8px 0 0; }\n\
#verdicts .badge { cursor: pointer; font-family: inherit; font-size: 0.95rem; padding: 3px 12px; }\n\
#verdicts .badge.lost, #verdicts .badge.clean { background: none; }\n\
#verdicts .badge[aria-pressed='true'] { outline: 3px double var(--ink); outline-offset: 2px; }\n\
#verdicts .badge[aria-pressed='true']::before { content: '✓ '; }\n\
.dds, .type, .hint, .qos { color: var(--faint); font-size: 0.85rem; font-weight: 400; }\n\
.hint { max-width: 110ch; }\n\
.type .name { font-weight: 400; }\n\
.name, .dds, .hint, .node, .host { overflow-wrap: anywhere; }\n\
.which { overflow-wrap: anywhere; }\n\
.guid { color: var(--faint); font-weight: 400; }\n\
.short { font-weight: 600; }\n\
.node { font-size: 0.9rem; }\n\
.host { font-size: 0.85rem; font-weight: 400; color: var(--faint); }\n\
.strips { margin-top: 6px; border-top: 1px solid var(--line); }\n\
.strip {\n\
display: grid;\n\
grid-template-columns: 210px minmax(0, 1fr) 190px;\n\
gap: 10px;\n\
align-items: center;\n\
border-bottom: 1px solid var(--line);\n\
color: inherit;\n\
text-decoration: none;\n\
font-size: 0.9rem;\n\
}\n\
a.strip:hover { background: var(--panel); }\n\
a.strip:focus-visible { outline-offset: -3px; }\n\
.strip-name { overflow: hidden; text-overflow: ellipsis; white-space: nowrap; padding-left: 4px; }\n\
.strip.bad .strip-name { font-weight: 600; }\n\
.strip-words { color: var(--faint); font-size: 0.85rem; }\n\
.lost-words { color: var(--mark); }\n\
.strip-picture { display: block; width: 100%; height: 32px; }\n\
.strip-axis { display: block; width: 100%; height: 18px; overflow: visible; }\n\
.strip-axis text { fill: var(--faint); font-size: 12px; }\n\
.axis-line { border-bottom: 0; color: var(--faint); font-size: 0.85rem; min-height: 20px; align-items: start; }\n\
.grid { stroke: var(--grid); fill: none; }\n\
.samples { fill: var(--samples); }\n\
.mark { fill: var(--mark); }\n\
.mark.unsent { fill: var(--sheet); stroke: var(--mark); stroke-width: 1.5; }\n\
.mark.not_arrived { fill: none; stroke: var(--mark); stroke-width: 2.25; }\n\
.mark.joins { fill: var(--complete); }\n\
.mark.leaves { fill: var(--sheet); stroke: var(--ink); stroke-width: 1.5; }\n\
.mark.silent { fill: var(--ink); }\n\
.wide { overflow-x: auto; }\n\
table { border-collapse: collapse; width: 100%; font-size: 0.92rem; }\n\
th, td { text-align: left; vertical-align: top; padding: 5px 10px 5px 0; border-bottom: 1px solid var(--line); }\n\
th { font-weight: 600; }\n\
thead th { white-space: nowrap; border-bottom: 2px solid var(--ink); vertical-align: bottom; }\n\
td p:last-child { margin-bottom: 0; }\n\
.event { border-left: 4px solid var(--mark); padding-left: 12px; margin: 10px 0 18px; }\n\
.event:focus { outline: none; }\n\
.topics { table-layout: fixed; }\n\
.topics th:nth-child(1) { width: 22%; }\n\
.topics th:nth-child(2) { width: 44%; }\n\
.topics .which { padding: 0; list-style: none; font-size: 0.88rem; }\n\
.no-pair h3::first-letter, .advice::first-letter, .notes b::first-letter, .todo::first-letter, #because li::first-letter { text-transform: uppercase; }\n\
.topics .advice { font-weight: 600; }\n\
.todo { display: block; }\n\
.pairs thead th { white-space: normal; min-width: 64px; }\n\
.pairs thead th.verdict { min-width: 250px; }\n\
.pairs thead th.writer, .pairs thead th.reader { min-width: 130px; }\n\
.pairs thead button { all: unset; cursor: pointer; text-decoration: underline dotted; text-underline-offset: 3px; }\n\
.pairs thead button:focus-visible { outline: 3px solid var(--focus); outline-offset: 2px; }\n\
.pairs th[aria-sort='ascending'] button::after { content: ' ▲'; }\n\
.pairs th[aria-sort='descending'] button::after { content: ' ▼'; }\n\
.count, .sum { text-align: right; font-variant-numeric: tabular-nums; }\n\
.pairs tr.pair { cursor: pointer; }\n\
.pairs tr.pair:hover { background: var(--panel); }\n\
.pairs tr.pair > th { padding-left: 20px; }\n\
.pairs tr.pair > th a { text-decoration: none; color: inherit; display: block; }\n\
.pair-name { color: var(--link); text-decoration: underline; text-underline-offset: 3px; }\n\
.pairs tr.chosen > * { border-bottom-color: transparent; background: var(--panel); }\n\
.in-datagram { color: var(--faint); font-weight: 400; font-size: 0.85rem; }\n\
.bad > .sum, b.bad { text-decoration: underline; text-decoration-thickness: 2px; text-underline-offset: 3px; }\n\
tr.group > * { border-bottom: 1px solid var(--faint); padding-top: 10px; }\n\
tr.group .type { margin-left: 12px; }\n\
tr.group .size, .clean-topics .size { margin-left: 12px; color: var(--faint); font-weight: 400; font-size: 0.85rem; }\n\
tr.folded > td { padding-left: 20px; }\n\
button.fold { all: unset; cursor: pointer; font-weight: 600; font-size: 0.98rem; overflow-wrap: anywhere; }\n\
tr.folded button.fold { font-weight: 400; font-size: 0.9rem; color: var(--link); }\n\
button.fold:focus-visible { outline: 3px solid var(--focus); outline-offset: 2px; }\n\
button.fold::before { content: '▸ '; }\n\
button.fold[aria-expanded='true']::before { content: '▾ '; }\n\
.words { margin-top: 10px; }\n\
.talk th { font-weight: 400; }\n\
.talk tbody th { min-width: 150px; }\n\
.talk thead th { font-weight: 600; }\n\
.talk-part { margin-bottom: 14px; }\n\
.endpoints th { white-space: nowrap; font-weight: 400; }\n\
.endpoints thead th { font-weight: 600; }\n\
details > summary { cursor: pointer; }\n\
.participant { border-bottom: 1px solid var(--line); }\n\
.participant > summary { padding: 4px 0; }\n\
.participant > summary > * { margin-right: 10px; }\n\
.participant .life { color: var(--faint); font-size: 0.88rem; font-variant-numeric: tabular-nums; }\n\
.participant[open] { padding-bottom: 12px; }\n\
.tools { display: flex; flex-wrap: wrap; gap: 8px; align-items: center; margin: 8px 0; }\n\
.tools input { flex: 1 1 200px; max-width: 420px; }\n\
input, select, button { font: inherit; color: inherit; }\n\
input, select { background: var(--sheet); border: 1px solid var(--faint); border-radius: 4px; padding: 4px 8px; min-height: 34px; }\n\
.tools button, .controls button, .more {\n\
background: var(--panel);\n\
border: 1px solid var(--faint);\n\
border-radius: 4px;\n\
padding: 3px 10px;\n\
min-height: 32px;\n\
cursor: pointer;\n\
}\n\
.more { margin: 10px 0; }\n\
#shown { color: var(--faint); font-size: 0.9rem; }\n\
tr.detail > td { padding: 0; background: var(--panel); }\n\
.detail-body {\n\
display: grid;\n\
grid-template-columns: minmax(0, 5fr) minmax(0, 7fr);\n\
gap: 20px;\n\
padding: 12px 14px 16px;\n\
border-left: 4px solid var(--ink);\n\
position: sticky;\n\
left: 0;\n\
max-width: calc(min(1240px, 100vw) - 32px);\n\
}\n\
.lead { font-weight: 600; overflow-wrap: anywhere; }\n\
.detail-words .advice { border: 1px solid var(--faint); border-radius: 4px; padding: 8px 10px; background: var(--sheet); }\n\
.rests-on { font-size: 0.92rem; }\n\
.ends-list { display: grid; grid-template-columns: max-content 1fr; gap: 2px 12px; margin: 0 0 8px; }\n\
.ends-list dt { color: var(--faint); }\n\
.ends-list dd { margin: 0; overflow-wrap: anywhere; }\n\
.names, .ranges { margin: 8px 0; font-size: 0.92rem; }\n\
.chart { margin: 0; }\n\
.chart canvas {\n\
display: block;\n\
width: 100%;\n\
height: 320px;\n\
background: var(--sheet);\n\
border: 1px solid var(--line);\n\
cursor: crosshair;\n\
touch-action: pan-y;\n\
}\n\
.chart figcaption { color: var(--faint); font-size: 0.85rem; }\n\
.controls { display: flex; flex-wrap: wrap; gap: 6px; margin: 8px 0; }\n\
.controls button { padding: 1px 8px; min-height: 28px; font-size: 0.88rem; background: var(--sheet); }\n\
.readout { min-height: 1.45em; font-size: 0.92rem; margin-top: 6px; }\n\
.legend { display: flex; flex-wrap: wrap; gap: 2px 16px; padding: 0; margin: 0 0 6px; list-style: none; font-size: 0.88rem; }\n\
.legend svg { margin-right: 6px; vertical-align: -3px; }\n\
.strips ~ .legend svg, #picture .legend svg { vertical-align: -7px; }\n\
.legend .sent { fill: var(--data); }\n\
.legend .again { fill: none; stroke: var(--data); stroke-width: 1.5; }\n\
.legend .asked { fill: none; stroke: var(--ink); stroke-width: 1.25; }\n\
.legend .band { fill: var(--band); stroke: var(--band-edge); }\n\
.legend .announced { fill: none; stroke: var(--announced); stroke-width: 1.25; }\n\
.legend .acknowledged { fill: none; stroke: var(--acknowledged); stroke-width: 3.5; }\n\
.legend .answer { fill: none; stroke: var(--acknowledged); stroke-width: 1.25; }\n\
.legend .verdict-line { fill: none; stroke: var(--mark); stroke-width: 1.5; stroke-dasharray: 5 3; }\n\
.legend .cross { fill: none; stroke: var(--mark); stroke-width: 2; }\n\
.legend .came { fill: var(--acknowledged); }\n\
.notes li { margin-bottom: 6px; }\n\
.counts { display: grid; grid-template-columns: repeat(auto-fill, minmax(480px, 1fr)); gap: 0 28px; margin: 0; font-size: 0.88rem; }\n\
.counts > div { display: grid; grid-template-columns: 96px 84px 1fr; gap: 10px; padding: 3px 0; border-bottom: 1px solid var(--line); }\n\
.counts dt { font-weight: 600; }\n\
.counts dd { margin: 0; }\n\
.endpoints .unpaired .in-pairs { color: var(--faint); }\n\
footer { margin-top: 28px; padding-top: 4px; border-top: 1px solid var(--line); color: var(--faint); font-size: 0.88rem; }\n\
footer h2 { font-size: 1rem; margin: 8px 0 4px; }\n\
@media (max-width: 980px) {\n\
.detail-body { grid-template-columns: minmax(0, 1fr); }\n\
.strip { grid-template-columns: 150px minmax(0, 1fr) 120px; }\n\
}\n\
@media screen and (max-width: 760px) {\n\
body { padding: 12px; }\n\
h1 { font-size: 1.3rem; }\n\
.strip { grid-template-columns: minmax(0, 1fr) auto; gap: 0 8px; padding: 3px 0; }\n\
.strip > svg { grid-row: 2; grid-column: 1 / -1; }\n\
.topics thead { position: absolute; clip-path: inset(50%); }\n\
.topics, .topics tbody, .topics tr, .topics th, .topics td {\n\
display: block;\n\
width: auto !important;\n\
min-width: 0;\n\
border: 0;\n\
padding: 2px 0;\n\
}\n\
.topics tr { border-bottom: 1px solid var(--line); padding: 8px 0; }\n\
.event { padding-left: 8px; }\n\
.pairs .count, .pairs .sum { display: none; }\n\
.pairs thead th.verdict, .pairs thead th.writer, .pairs thead th.reader, .pairs tr.pair > th, .pairs thead th { min-width: 0; }\n\
.pairs tr.pair > th { padding-left: 4px; }\n\
.pairs td, .pairs th { padding-right: 6px; }\n\
.badge { white-space: normal; }\n\
tr.group .type, tr.group .size { display: block; margin-left: 0; }\n\
.endpoints thead { position: absolute; clip-path: inset(50%); }\n\
.endpoints, .endpoints tbody, .endpoints tr, .endpoints th, .endpoints td { display: block; border: 0; padding: 1px 0; }\n\
.endpoints tr { border-bottom: 1px solid var(--line); padding: 6px 0; }\n\
.counts { grid-template-columns: 1fr; }\n\
.detail-body { padding: 10px 8px; max-width: calc(100vw - 24px); }\n\
}\n\
@media print {\n\
html { font-size: 11px; }\n\
body { max-width: none; padding: 0; }\n\
.skip, .tools, .controls, .readout, figcaption, #bar, #verdicts, .more { display: none; }\n\
.wide { overflow: visible; }\n\
.scripted #text { display: block; break-before: page; }\n\
#text pre { white-space: pre-wrap; overflow-wrap: anywhere; }\n\
.pairs thead button { text-decoration: none; }\n\
.pairs { font-size: 0.85rem; }\n\
.topics, .pairs thead th, .pairs thead th.verdict, .pairs thead th.writer, .pairs thead th.reader, .pairs tr.pair > th { min-width: 0; }\n\
.pairs th, .pairs td { padding-right: 6px; }\n\
thead { display: table-header-group; }\n\
tr.pair, .topics tr, .chart, .advice, .strip, .outcome { break-inside: avoid; }\n\
h2, tr.group { break-after: avoid; }\n\
.detail-body { grid-template-columns: 1fr; max-width: none; position: static; }\n\
.badge, .strip { print-color-adjust: exact; }\n\
a { color: inherit; }\n\
}\n\
@media (prefers-reduced-motion: reduce) {\n\
* { animation: none !important; transition: none !important; scroll-behavior: auto !important; }\n\
}\n\
</style>\n\
<script>'use strict';\n\
document.documentElement.classList.add('scripted');\n\
</script>\n\
</head>\n\
<body>\n\
<div id=\"page\" hidden>\n\
<a class=\"skip\" href=\"#happened\">To what happened</a>\n\
<header>\n\
<p id=\"program\"></p>\n\
<h1 id=\"name\"></h1>\n\
<p id=\"when\"></p>\n\
<div class=\"outcome\">\n\
<p id=\"outcome\"></p>\n\
<p id=\"received\"></p>\n\
<ul id=\"because\"></ul>\n\
</div>\n\
<ul id=\"hosts\"></ul>\n\
</header>\n\
<nav id=\"bar\" aria-label=\"Sections\"></nav>\n\
<main hidden>\n\
<section id=\"picture\" aria-labelledby=\"picture-head\" tabindex=\"-1\" data-name=\"Picture\">\n\
<h2 id=\"picture-head\">The recording in one picture</h2>\n\
</section>\n\
<section id=\"happened\" aria-labelledby=\"happened-head\" tabindex=\"-1\">\n\
<h2 id=\"happened-head\">What happened</h2>\n\
</section>\n\
<section id=\"talk\" aria-labelledby=\"talk-head\" tabindex=\"-1\" data-name=\"Discovery\">\n\
<h2 id=\"talk-head\">Discovery that is not complete</h2>\n\
</section>\n\
<section id=\"pairs\" aria-labelledby=\"pairs-head\" tabindex=\"-1\" data-name=\"Topics\">\n\
<h2 id=\"pairs-head\">Topics and their pairs</h2>\n\
<p class=\"hint\">A pair is a reliable writer and a reliable reader of one topic that match. It is complete if the reader acknowledged every\n\
number that is asked about and that the writer announced; open if it did not; unfounded if it acknowledged what the recording never\n\
sent to it; and a conflict if two payloads have one number. A pair opens by a click.</p>\n\
</section>\n\
<section id=\"best-effort\" aria-labelledby=\"best-effort-head\" tabindex=\"-1\" data-name=\"Best effort\">\n\
<h2 id=\"best-effort-head\">Pairs of best effort</h2>\n\
</section>\n\
<section id=\"notes\" aria-labelledby=\"notes-head\" tabindex=\"-1\" data-name=\"Notes\">\n\
<h2 id=\"notes-head\">What weakens this report</h2>\n\
</section>\n\
<section id=\"participants\" aria-labelledby=\"participants-head\" tabindex=\"-1\">\n\
<h2 id=\"participants-head\">Participants</h2>\n\
</section>\n\
<section id=\"counts\" aria-labelledby=\"counts-head\" tabindex=\"-1\" data-name=\"Counts\">\n\
<h2 id=\"counts-head\">Counts of the recording</h2>\n\
</section>\n\
</main>\n\
<footer id=\"premises\">\n\
<h2>What the report rests on</h2>\n\
<p>A row always follows from the recording. It is true of your test if the recording has all datagrams that were sent, no\n\
others, in the order of sending; if a reader acknowledges only what it received or what was said to be gone; and if it\n\
learns of numbers only by DATA, DATA_FRAG, GAP and HEARTBEAT. A recording at the writer’s side lacks only those answers that the\n\
network lost: a row may be open for that, or have unanswered numbers.</p>\n\
<p id=\"arrived\" hidden>A number arrived if another recording, made at the reader’s host, has a whole payload of it for the reader. That is counted, and is no premise\n\
of a verdict.</p>\n\
</footer>\n\
</div>\n\
<section id=\"text\">\n\
<noscript>\n\
<h1>rtps-audit: a report</h1>\n\
<p>Scripts are switched off here. Save this file and open it from your disk to see tables, and what each pair said.</p>\n\
</noscript>\n\
<h2>The report as text</h2>\n\
<pre tabindex=\"0\">\n\
";

/// What stands between it and the data.
pub(crate) const MIDDLE: &str = "\
</pre>\n\
</section>\n\
<script>'use strict';\n\
function rosTopic(topic) {\n\
const [, kind, name] = /^(rt|rq|rr)\\/(.*)$/.exec(topic) || [];\n\
if (kind === 'rt') return `/${name}`;\n\
if (kind === 'rq' && name.endsWith('Request')) return `/${name.slice(0, -'Request'.length)} request`;\n\
if (kind === 'rr' && name.endsWith('Reply')) return `/${name.slice(0, -'Reply'.length)} reply`;\n\
return null;\n\
}\n\
function rosType(type) {\n\
const [, before, name] = /^(.*?)::dds_::(.*)_$/.exec(type) || [];\n\
return name === undefined ? null : `${before.replaceAll('::', '/')}/${name}`;\n\
}\n\
const shownTopic = (topic) => rosTopic(topic) || topic;\n\
function memo(made) {\n\
let value;\n\
return () => (value ??= made());\n\
}\n\
function make(tag, attributes, ...children) {\n\
const element = document.createElement(tag);\n\
for (const [name, value] of Object.entries(attributes || {})) element.setAttribute(name, value);\n\
return fill(element, ...children);\n\
}\n\
function fill(element, ...children) {\n\
element.replaceChildren(...children.flat().filter((child) => child !== null && child !== false && child !== undefined));\n\
return element;\n\
}\n\
function makeButton(attributes, label, act) {\n\
const button = make('button', { type: 'button', ...attributes }, label);\n\
button.addEventListener('click', () => act(button));\n\
return button;\n\
}\n\
function makeFold(attributes, line, made) {\n\
const fold = make('details', attributes, make('summary', null, ...line));\n\
fold.addEventListener('toggle', () => {\n\
if (fold.open && fold.children.length === 1) fold.append(...made());\n\
});\n\
return fold;\n\
}\n\
function openFold(fold) {\n\
fold.open = true;\n\
fold.dispatchEvent(new Event('toggle'));\n\
}\n\
function bothNames(tag, ros, dds) {\n\
return ros ? [make(tag, { class: 'name' }, ros), ' ', make('span', { class: 'dds' }, dds)] : [make(tag, { class: 'name' }, dds)];\n\
}\n\
const topicName = (topic) => bothNames('b', rosTopic(topic), topic);\n\
const typeName = (type) => bothNames('span', rosType(type), type);\n\
const oneName = (tag, text) => make(tag, { class: 'name' }, text);\n\
function guidText(guid) {\n\
return make('code', { class: 'guid' }, guid.slice(0, 12), make('wbr'), guid.slice(12, 24), make('wbr'), guid.slice(24));\n\
}\n\
function titleOf({ nodes, announced }) {\n\
return (nodes.length === 1 && nodes[0]) || announced?.process || announced?.name || (nodes.length > 1 && nodesText({ nodes })) || '';\n\
}\n\
function whereOf({ announced }) {\n\
const { pid = null, host = null, address = null } = announced || {};\n\
const process = [pid !== null && `pid ${pid}`, host !== null && `on ${host}`].filter(Boolean).join(' ');\n\
return [process, address].filter(Boolean).join(', ');\n\
}\n\
function endpointName(report, guid, node) {\n\
const participant = report.participantOf(guid);\n\
if (!participant) return [guidText(guid)];\n\
const [title, where] = [node || titleOf(participant), whereOf(participant)];\n\
return [make('a', { href: `#participant-${participant.at}`, class: 'short' }, participant.name),\n\
title && make('span', { class: 'node' }, ` ${title}`), where && make('span', { class: 'host' }, ` ${title || where !== participant.announced?.address ? `(${where})` : `at ${where}`}`)];\n\
}\n\
function endpointBriefly(report, guid, node) {\n\
const participant = report.participantOf(guid);\n\
if (!participant) return [guidText(guid)];\n\
const { host = null, address = null } = participant.announced || {};\n\
const [title, where] = [node || titleOf(participant), host !== null ? `on ${host}` : address !== null && `at ${address}`];\n\
return [make('a', { href: `#participant-${participant.at}`, class: 'short' }, participant.name),\n\
title && make('span', { class: 'node' }, ` ${title}`), where && make('span', { class: 'host' }, ` ${where}`)];\n\
}\n\
function endText(report, guid, node) {\n\
const participant = report.participantOf(guid);\n\
return participant ? `${participant.name} ${node || titleOf(participant)}`.trim() : guid;\n\
}\n\
function nodesText({ nodes }, most = 2) {\n\
return nodes.length <= most ? nodes.join(', ') : `${nodes.slice(0, most).join(', ')} and ${nodes.length - most} more`;\n\
}\n\
const NAMED_TOPICS = 4;\n\
function topicsText({ endpoints }) {\n\
const part = (side, verb) => {\n\
const ends = endpoints.filter((endpoint) => endpoint.side === side && !/^r[qr]\\//.test(endpoint.topic));\n\
const topics = [...new Set(ends.map(({ topic }) => shownTopic(topic)))].sort();\n\
const more = topics.length > NAMED_TOPICS ? ` and ${topics.length - NAMED_TOPICS} more` : '';\n\
return topics.length > 0 && `${verb} ${topics.slice(0, NAMED_TOPICS).join(', ')}${more}`;\n\
};\n\
return [part('writer', 'writes'), part('reader', 'reads')].filter(Boolean).join('; ');\n\
}\n\
function tableHead(...heads) {\n\
return make('thead', null, make('tr', null, ...heads.map((head) => make('th', { scope: 'col' }, head))));\n\
}\n\
const badge = (kind, words) => make('span', { class: `badge ${kind}` }, words);\n\
function inParts(section, noun, items, [first, next], append) {\n\
let shown = 0;\n\
const button = makeButton({ class: 'more' }, '', () => more(next)[0].focus());\n\
const more = (count) => {\n\
const elements = append(items.slice(shown, shown + count));\n\
shown += elements.length;\n\
button.hidden = shown === items.length;\n\
button.textContent = `Show ${plural(items.length - shown, `more ${noun}`)}`;\n\
return button.hidden ? elements : [button];\n\
};\n\
section.append(button);\n\
more(first);\n\
return (count) => count > shown && more(count - shown);\n\
}\n\
const SVG = 'http://www.w3.org/2000/svg';\n\
function drawn(tag, attributes, ...children) {\n\
const element = document.createElementNS(SVG, tag);\n\
for (const [name, value] of Object.entries(attributes)) element.setAttribute(name, value);\n\
element.append(...children);\n\
return element;\n\
}\n\
function legendItem(text, ...shapes) {\n\
return make('li', null, drawn('svg', { viewBox: '0 0 24 14', width: '24', height: '14', 'aria-hidden': 'true' }, ...shapes), text);\n\
}\n\
</script>\n\
<script>'use strict';\n\
const lastLine = memo(() => {\n\
const text = document.querySelector('#text pre').textContent.trimEnd();\n\
return text.slice(text.lastIndexOf('\\n') + 1);\n\
});\n\
function showOutcome(isWhole) {\n\
const [word, ...rest] = lastLine().split(': ');\n\
const isClean = word === 'clean';\n\
fill(document.getElementById('outcome'),\n\
badge(isClean ? 'outcome good' : 'outcome bad', [make('span', { 'aria-hidden': 'true' }, isClean ? '✓ ' : '✗ '), make('span', { class: 'word' }, word)]),\n\
isWhole && rest.length > 0 && make('span', { class: 'more-said' }, ` ${rest.join(': ')}`));\n\
}\n\
document.title = `${lastLine()}: rtps-audit`;\n\
showOutcome(true);\n\
fill(document.getElementById('received'), 'The pairs are being read.');\n\
document.getElementById('page').hidden = false;\n\
</script>\n\
<script type=\"application/json\" id=\"data\">";

/// What stands behind the data.
pub(crate) const TAIL: &str = "\
</script>\n\
<script>'use strict';\n\
const KINDS = ['unfounded', 'conflict', 'open', 'lost', 'clean'];\n\
const KIND_WORDS = Object.fromEntries(KINDS.map((kind) => [kind, kind === 'lost' ? `complete, ${kind}` : kind]));\n\
const OUTCOMES = ['received', 'arrived', 'likely', 'missed', 'unsent', 'unanswered', 'unconfirmed'];\n\
const LOST = ['missed', 'unsent', 'unanswered'];\n\
const LOST_WORDS = { missed: 'Missed', unsent: 'Unsent', unanswered: 'Unanswered', not_arrived: 'Not arrived' };\n\
const PLUMBING = ['ros_discovery_info', 'rt/parameter_events'];\n\
const STRING_OR_LARGE = /\"(?:[^\"\\\\]|\\\\.)*\"|\\d{16,}/g;\n\
const isLarge = (n) => n > Number.MAX_SAFE_INTEGER;\n\
function isRounded({ number, announced, acknowledged, from }) {\n\
return isLarge(number) || isLarge(from) || (announced !== null && isLarge(announced.number)) || (acknowledged !== null && isLarge(acknowledged.below));\n\
}\n\
function reportOf(text) {\n\
const report = new Report(JSON.parse(text));\n\
if (!report.isRounded) return report;\n\
return new Report(JSON.parse(text.replace(STRING_OR_LARGE, (found) => (found[0] === '\"' ? found : `\"${found}\"`))));\n\
}\n\
function isRoundedElsewhere({ options: { from, expect, tail }, best_effort: bestEffort, arrived = [] }) {\n\
return [from, expect, tail].some(isLarge) || [...bestEffort, ...arrived].some(({ numbers, not_arrived: named = [] }) => [numbers, ...named].some(isLarge));\n\
}\n\
function compareNumbers(a, b) {\n\
if (typeof a === 'number' && typeof b === 'number') return a - b;\n\
const [x, y] = [BigInt(a), BigInt(b)];\n\
return x < y ? -1 : Number(x > y);\n\
}\n\
const isAbove = (a, b) => compareNumbers(a, b) > 0;\n\
function added(a, b) {\n\
if (b === 0) return a;\n\
if (typeof a === 'number' && typeof b === 'number' && a + b <= Number.MAX_SAFE_INTEGER) return a + b;\n\
return BigInt(a) + BigInt(b);\n\
}\n\
const differenceOf = (a, b) => (typeof a === 'number' && typeof b === 'number' ? a - b : BigInt(a) - BigInt(b));\n\
const sumOf = (rows, numberOf) => rows.reduce((sum, row) => added(sum, numberOf(row)), 0);\n\
const counted = (n) => String(n).replace(/\\B(?=(\\d{3})+$)/g, ',');\n\
const plural = (n, noun, nouns = `${noun}s`) => `${counted(n)} ${String(n) === '1' ? noun : nouns}`;\n\
const partOf = (n, all, noun) => (n === all ? plural(all, noun) : `${counted(n)} of ${plural(all, noun)}`);\n\
const askedAbout = ({ payloads, gone, untold }) => added(added(payloads, gone), untold);\n\
const isHeld = ({ outcomes: { arrived = null } }) => arrived !== null;\n\
function lostOf({ outcomes }) {\n\
const lost = added(added(outcomes.missed, outcomes.unsent), outcomes.unanswered);\n\
return (outcomes.arrived ?? null) === null ? lost : added(added(lost, outcomes.likely), outcomes.unconfirmed);\n\
}\n\
const prefixOf = (guid) => guid.slice(0, 24);\n\
const entityOf = (guid) => guid.slice(24);\n\
function kindOf({ verdict, clean }) {\n\
if (clean) return 'clean';\n\
return verdict === 'complete' ? 'lost' : verdict;\n\
}\n\
function entryOf(map, key, made) {\n\
if (!map.has(key)) map.set(key, made());\n\
return map.get(key);\n\
}\n\
function worse(a, b) {\n\
return Number(a.clean) - Number(b.clean) || compareNumbers(b.lost, a.lost) || a.rank - b.rank || Number(a.isPlumbing) - Number(b.isPlumbing);\n\
}\n\
class Report {\n\
constructor(data) {\n\
this.data = data;\n\
this.rows = data.pairs;\n\
this.groups = groupsOf(this.rows, data.options.from);\n\
this.isRounded = isRoundedElsewhere(data) || this.groups.some(({ isRounded }) => isRounded);\n\
this.acts = new Map(data.writers.map(({ guid, acts }) => [guid, acts]));\n\
this.endpointOf = new Map(data.endpoints.map((endpoint) => [endpoint.guid, endpoint]));\n\
this.participants = participantsOf(data);\n\
this.times = new Map((data.times || []).map((entry) => [entry[0], entry]));\n\
this.isTimed = data.times !== undefined;\n\
this.hasSilent = data.participants.some(({ silent }) => silent);\n\
this.bases = null;\n\
this.numbered = new Map();\n\
this.told = new Map();\n\
}\n\
secondOf(datagram) {\n\
return this.times.get(datagram)?.[1];\n\
}\n\
frameOf(datagram) {\n\
return this.times.get(datagram)?.[2];\n\
}\n\
axis() {\n\
this.range ||= this.isTimed ? { word: 's', low: 0, high: this.seconds() } : { word: 'datagram', low: 0, high: this.data.datagrams };\n\
return this.range;\n\
}\n\
seconds() {\n\
const { begin = null, end = null } = this.data.recording || {};\n\
const last = this.data.participants.reduce((most, { last_time: time }) => Math.max(most, time || 0), 0);\n\
return Math.max(last, begin !== null && end !== null ? (end - begin) / 1000 : 0);\n\
}\n\
placeOf(datagram) {\n\
return this.isTimed ? this.secondOf(datagram) : datagram;\n\
}\n\
onAxis({ datagram, time = null }) {\n\
return this.isTimed ? time : datagram;\n\
}\n\
counts() {\n\
return Object.entries(this.data).filter(([, value]) => typeof value === 'number');\n\
}\n\
basesOf({ writer, reader }) {\n\
this.bases ||= new Map(this.data.answers.map((answer) => [answer.writer + answer.reader, answer.bases]));\n\
return this.bases.get(writer + reader);\n\
}\n\
actsOf({ writer }) {\n\
return this.acts.get(writer);\n\
}\n\
sendingsOf({ writer, reader }) {\n\
const byNumber = entryOf(this.numbered, writer, () => dataByNumber(this.acts.get(writer) || []));\n\
const to = namesOf(reader);\n\
return (number) => (byNumber.get(number) || []).find((entry) => to.includes(namedBy(entry)));\n\
}\n\
tellingsOf({ writer }) {\n\
return entryOf(this.told, writer, () => (this.acts.has(writer) ? risingOf(this.acts.get(writer)) : null));\n\
}\n\
participantOf(guid) {\n\
return this.participants.get(prefixOf(guid));\n\
}\n\
lateOf({ writer, reader }) {\n\
return (this.data.late || []).find((late) => late.writer === writer && late.reader === reader);\n\
}\n\
}\n\
const namesOf = (reader) => [undefined, reader, prefixOf(reader), entityOf(reader)];\n\
const NUMBERS_OF = { gone: 2, piece: 3 };\n\
const numbersIn = (what) => NUMBERS_OF[what] || 1;\n\
const namedBy = (entry) => entry[3 + numbersIn(entry[2])];\n\
const IS_SENDING = new Set(['data', 'piece']);\n\
function dataByNumber(acts) {\n\
const found = new Map();\n\
for (const entry of acts) if (IS_SENDING.has(entry[2])) entryOf(found, entry[3], () => []).push(entry);\n\
return found;\n\
}\n\
function risingOf(acts) {\n\
const steps = [];\n\
let last = 0;\n\
for (const [datagram, , what, number] of acts) {\n\
if (what === 'gone' || number <= last) continue;\n\
steps.push([datagram, Number(number)]);\n\
last = number;\n\
}\n\
return steps;\n\
}\n\
const NO_NUMBERS = Object.freeze({});\n\
function groupsOf(rows, first) {\n\
const topics = new Map();\n\
let group = null;\n\
for (let at = 0; at < rows.length; at += 1) {\n\
const row = rows[at];\n\
if (group === null || row.topic !== group.topic || row.type !== group.type) {\n\
group = entryOf(entryOf(topics, row.topic, () => new Map()), row.type, () => emptyGroup(row));\n\
}\n\
judgeRow(row, at, group);\n\
addRow(group, row, first);\n\
}\n\
const groups = [...topics.values()].flatMap((types) => [...types.values()]);\n\
groups.forEach((one, at) => Object.assign(one, { at, clean: one.bad === 0 }));\n\
return groups;\n\
}\n\
function judgeRow(row, at, group) {\n\
row.at = at;\n\
row.group = group;\n\
row.kind = kindOf(row);\n\
row.rank = KINDS.indexOf(row.kind);\n\
row.lost = lostOf(row);\n\
row.isPlumbing = group.isPlumbing;\n\
row.numbers ||= NO_NUMBERS;\n\
}\n\
function emptyGroup({ topic, type }) {\n\
return {\n\
topic, type, rows: [], bad: 0, lost: 0, rank: KINDS.length, isPlumbing: PLUMBING.includes(topic), isRounded: false, held: [],\n\
kinds: KINDS.map(() => 0),\n\
sums: { received: 0, arrived: 0, likely: 0, missed: 0, unsent: 0, unanswered: 0, unconfirmed: 0, before: 0, proved: 0, asked: 0 },\n\
};\n\
}\n\
function addRow(group, row, first) {\n\
const { sums } = group;\n\
group.rows.push(row);\n\
group.bad += Number(!row.clean);\n\
group.lost = added(group.lost, row.lost);\n\
group.rank = Math.min(group.rank, row.rank);\n\
group.kinds[row.rank] += 1;\n\
group.isRounded ||= isRounded(row);\n\
if (isHeld(row)) group.held.push(row);\n\
addOutcomes(sums, row.outcomes);\n\
sums.before = added(sums.before, differenceOf(row.from, first));\n\
sums.proved = added(sums.proved, row.received);\n\
sums.asked = added(sums.asked, askedAbout(row));\n\
}\n\
function addOutcomes(sums, { received, arrived, likely, missed, unsent, unanswered, unconfirmed }) {\n\
sums.received = added(sums.received, received);\n\
sums.arrived = added(sums.arrived, arrived || 0);\n\
sums.likely = added(sums.likely, likely);\n\
sums.missed = added(sums.missed, missed);\n\
sums.unsent = added(sums.unsent, unsent);\n\
sums.unanswered = added(sums.unanswered, unanswered);\n\
sums.unconfirmed = added(sums.unconfirmed, unconfirmed);\n\
}\n\
function participantsOf(data) {\n\
const announced = new Map([...data.endpoints, ...data.participants].map(({ guid }) => [prefixOf(guid), null]));\n\
for (const participant of data.participants) announced.set(prefixOf(participant.guid), participant);\n\
const participants = new Map([...announced.keys()].sort().map((prefix, at) => (\n\
[prefix, { at: at + 1, name: `P${at + 1}`, prefix, announced: announced.get(prefix), endpoints: [], nodes: announced.get(prefix)?.nodes || [] }])));\n\
for (const endpoint of data.endpoints) participants.get(prefixOf(endpoint.guid)).endpoints.push(endpoint);\n\
return participants;\n\
}\n\
</script>\n\
<script>'use strict';\n\
const KIND_OF_ACT = { data: 'a DATA', heartbeat: 'a HEARTBEAT', gap: 'a GAP', data_frag: 'a DATA_FRAG' };\n\
const secondText = (time) => (typeof time === 'number' ? `, ${time.toFixed(3)} s` : '');\n\
const frameText = (frame) => (typeof frame === 'number' ? `, frame ${frame}` : '');\n\
const placeText = ({ datagram, at, frame, time }) => `datagram ${datagram}, octet ${at}${frameText(frame)}${secondText(time)}`;\n\
const actText = (act) => `${KIND_OF_ACT[act.by] || act.by} in ${placeText(act)}`;\n\
const VERDICTS = {\n\
unfounded: ({ number, datagram }) => `In datagram ${datagram} the reader acknowledged sample ${number}, but nothing before that sent it `\n\
+ `${number} or said that ${number} is gone.`,\n\
conflict: ({ number }) => `The writer sent two different payloads for sample ${number} to this reader.`,\n\
open: openSentence,\n\
complete: completeSentence,\n\
};\n\
const verdictSentence = (row) => [VERDICTS[row.verdict](row), ...lostSentences(row)].join(' ');\n\
function openSentence({ number, announced, not_arrived: lacking }) {\n\
const [samples, are, them] = number === announced.number\n\
? [`sample ${number}`, 'it is', 'it'] : [`samples ${number} to ${announced.number}`, 'they are', 'them'];\n\
if (lacking && lacking.length === 0) return `The reader never acknowledged ${samples}, but all numbers are received or arrived.`;\n\
return `The reader may lack ${samples}: ${are} announced, and the reader never acknowledged ${them}.`;\n\
}\n\
function completeSentence({ number, announced, from }) {\n\
if (announced === null) return from === 1 ? 'The writer announced no number.' : `The writer announced no number from ${from} on.`;\n\
return `The reader acknowledged each sample from ${from} to ${number}.`;\n\
}\n\
const listed = (numbers, count) => `${numbers.join(', ')}${isAbove(count, numbers.length) ? ` and ${counted(count - BigInt(numbers.length))} more` : ''}`;\n\
const LOST_TOLD = 10;\n\
const lostSentences = ({ numbers }) => Object.keys(LOST_WORDS).filter((kind) => numbers[kind]).map((kind) => `${LOST_WORDS[kind]} ${rangesText(numbers[kind])}.`);\n\
function rangesText({ ranges, more }) {\n\
const told = ranges.slice(0, LOST_TOLD);\n\
return listed(told.map(rangeText), BigInt(ranges.length) + BigInt(more));\n\
}\n\
function rangeText({ first, last, sent }) {\n\
const moment = `${secondText(sent?.time)}${frameText(sent?.frame)}`.slice(2);\n\
return `${first}${isAbove(last, first) ? `-${last}` : ''}${moment && ` (${moment})`}`;\n\
}\n\
const evidenceSentences = (row) => [\n\
...spanSentences(row), ...commonSentences(row), ...receivedSentences(row), ...OWN_SENTENCES[row.verdict](row), ...waitSentences(row), ...silenceSentences(row),\n\
];\n\
const lateSentences = (late) => (late === undefined ? [] : [`The two matched ${lateText(late)}.`]);\n\
function spanSentences({ from, until, until_time: time, until_frame: frame, outcomes }) {\n\
const kinds = OUTCOMES.filter((name) => outcomes[name] > 0).map((name) => `${counted(outcomes[name])} ${name}`);\n\
const left = until === null ? '' : `, until datagram ${until}${frameText(frame)}${secondText(time)}, in which the reader left`;\n\
return [`The row is about the numbers from ${from} on${left}: ${kinds.join(', ') || 'none is announced'}.`];\n\
}\n\
function commonSentences(row) {\n\
const { announced, acknowledged } = row;\n\
return [\n\
announced ? `The writer announced number ${announced.number}, first by ${actText(announced)}.` : 'The writer announced nothing.',\n\
acknowledged\n\
? `The reader acknowledged all numbers below ${acknowledged.below}, first by an ACKNACK in ${placeText(acknowledged)}.`\n\
: 'The reader acknowledged nothing.',\n\
`Of ${plural(askedAbout(row), 'number')}, ${counted(row.payloads)} ${row.payloads === 1 ? 'was' : 'were'} sent to this reader, `\n\
+ `${counted(row.gone)} only said to be gone, and ${counted(row.untold)} neither.`,\n\
];\n\
}\n\
function receivedSentences(row) {\n\
const { missed, first_missed: first, not_received: lacked } = row;\n\
const found = [`The recording proves ${counted(row.received)} of ${plural(askedAbout(row), 'number')} received.`];\n\
if (first) {\n\
const again = first.again ? `it was sent again in ${placeText(first.again)}, and ` : '';\n\
found.push(`The reader missed ${plural(missed, 'number')}: it asked for ${first.number} in ${placeText(first.asked)}, and ${again}`\n\
+ (first.gone ? `then ${first.number} was told gone by ${actText(first.gone)}.` : `${first.number} was not told gone since.`));\n\
}\n\
if (lacked) found.push(`Number ${lacked.number} may not be received: ${lackedText(lacked)}.`);\n\
return found;\n\
}\n\
function lackedText({ gone, acknowledged }) {\n\
if (!acknowledged) return 'it is not acknowledged';\n\
if (gone) return `it was told gone by ${actText(gone)}, and acknowledged in ${placeText(acknowledged)}`;\n\
return `nothing told it before it was acknowledged in ${placeText(acknowledged)}`;\n\
}\n\
const OWN_SENTENCES = {\n\
open: (row) => [tellerSentence(row), askedSentence(row)],\n\
conflict: ({ number, sent }) => sent.map((one) => `Number ${number} was sent with ${payloadText(one)} in ${placeText(one)}.`),\n\
unfounded: (row) => [`The reader acknowledged all numbers below ${row.claimed.below} in ${placeText(row.claimed)}.`, tellerSentence(row)],\n\
complete: () => [],\n\
};\n\
function waitSentences({ wait }) {\n\
if (!wait) return [];\n\
const answered = wait.answered ? `answered in ${placeText(wait.answered)}` : 'not answered';\n\
return [`The reader let the writer wait ${wait.seconds.toFixed(3)} s: asked in ${placeText(wait.asked)}, ${answered}.`];\n\
}\n\
const silenceSentences = ({ silence = [] }) => silence.map((text) => `${text[0].toUpperCase()}${text.slice(1)}.`);\n\
const tellerSentence = ({ number, told }) => (\n\
told ? `Number ${number} was first told by ${actText(told)}.` : `Nothing in the recording tells number ${number} to this reader.`);\n\
function askedSentence({ asked_since: count, last_asked: last }) {\n\
if (!last) return 'The writer did not ask for an answer since the reader’s last one.';\n\
return `The writer asked ${plural(count, 'time')} for an answer since the reader’s last one, last in ${placeText(last)}.`;\n\
}\n\
const payloadText = ({ payload, octets }) => (payload === 'absent' ? 'no payload' : `${payload === 'key' ? 'a key' : 'a sample'} of ${plural(octets, 'octet')}`);\n\
function receivedSentence({ rows, groups, data }) {\n\
if (rows.length === 0) return '';\n\
const good = rows.length - groups.reduce((sum, { bad }) => sum + bad, 0);\n\
const [received, asked, arrived] = ['proved', 'asked', 'arrived'].map((name) => sumOf(groups, ({ sums }) => sums[name]));\n\
const more = data.arrived ? `, ${counted(arrived)} more arrived` : '';\n\
return `${counted(good)} of ${plural(rows.length, 'pair')} ${rows.length === 1 ? 'is' : 'are'} clean. The recording proves `\n\
+ `${counted(received)} of ${plural(asked, 'number')} received${more}.`;\n\
}\n\
</script>\n\
<script>'use strict';\n\
const NAMED_HOSTS = 12;\n\
const NAMED_NODES = 16;\n\
function showHead(report) {\n\
const { data } = report;\n\
const at = (id) => document.getElementById(id);\n\
const { name = null, version = null } = data.recording || {};\n\
fill(at('program'), `rtps-audit${version === null ? '' : ` ${version}`}, a report of `, askedText(data));\n\
fill(at('name'), name === null ? 'A recording' : name === '-' ? 'Standard input (-)' : name);\n\
fill(at('when'), ...whenParts(report));\n\
showOutcome(data.because.length === 0);\n\
fill(at('received'), receivedSentence(report));\n\
fill(at('because'), ...data.because.map((reason) => make('li', null, reason)));\n\
at('because').hidden = data.because.length === 0;\n\
showHosts(report, at('hosts'));\n\
at('arrived').hidden = !data.arrived;\n\
}\n\
function askedText({ options, arrived }) {\n\
const words = [\n\
options.from !== 1 && `--from ${options.from}`,\n\
...options.topics.map((pattern) => `--topic '${pattern}'`),\n\
...(options.nodes || []).map((pattern) => `--node '${pattern}'`),\n\
options.expect !== null && `--expect ${options.expect}`,\n\
options.tail !== 0 && `--tail ${options.tail}`,\n\
options.certain && '--certain',\n\
arrived && '--arrived OTHER',\n\
].filter(Boolean);\n\
const numbers = options.from === 1 ? 'all numbers' : `the numbers from ${options.from} on`;\n\
return words.length === 0 ? [`${numbers}, without options`] : [`${numbers}, with `, make('code', null, words.join(' '))];\n\
}\n\
const padded = (n, size = 2) => String(n).padStart(size, '0');\n\
function momentText(milliseconds, minutes) {\n\
const moment = new Date(milliseconds + minutes * 60000);\n\
return `${padded(moment.getUTCFullYear(), 4)}-${padded(moment.getUTCMonth() + 1)}-${padded(moment.getUTCDate())} ${padded(moment.getUTCHours())}:`\n\
+ `${padded(moment.getUTCMinutes())}:${padded(moment.getUTCSeconds())}.${padded(moment.getUTCMilliseconds(), 3)}`;\n\
}\n\
function spanText(begin, end, minutesAt) {\n\
const [from, to] = [begin, end].map((moment) => momentText(moment, minutesAt(moment)));\n\
return `${from} to ${to.slice(0, 10) === from.slice(0, 10) ? to.slice(11) : to}`;\n\
}\n\
const minutesHere = (moment) => -new Date(moment).getTimezoneOffset();\n\
const offsetText = (minutes) => `UTC${minutes < 0 ? '−' : '+'}${padded(Math.floor(Math.abs(minutes) / 60))}:${padded(Math.abs(minutes) % 60)}`;\n\
function lengthText(milliseconds) {\n\
const [minutes, left] = [Math.floor(milliseconds / 60000), milliseconds % 60000];\n\
return `${minutes > 0 ? `${counted(minutes)} min ` : ''}${(left / 1000).toFixed(3)} s`;\n\
}\n\
function whenParts(report) {\n\
const { begin = null, end = null } = report.data.recording || {};\n\
const size = `${plural(report.data.datagrams, 'datagram')}`;\n\
if (begin === null || end === null) return [report.isTimed ? `${report.seconds().toFixed(3)} s, ${size}` : size];\n\
const here = minutesHere(begin);\n\
const universal = `${spanText(begin, end, () => 0)} UTC`;\n\
return [make('b', null, lengthText(end - begin)), `, ${size}, `,\n\
here === 0 ? universal : `${spanText(begin, end, minutesHere)} ${offsetText(here)} (${universal})`];\n\
}\n\
const firstLines = () => document.querySelector('#text pre').textContent.split('\\n\\n')[0].split('\\n').map((line) => line.replace(/^ *(-> )?/, '')).filter(Boolean);\n\
function hostsOf(report) {\n\
const hosts = new Map();\n\
for (const participant of report.participants.values()) {\n\
const { host = null, address = null } = participant.announced || {};\n\
const found = entryOf(hosts, host ?? address ?? '', () => ({ host, addresses: new Set(), nodes: new Set(), participants: 0 }));\n\
if (address !== null) found.addresses.add(address);\n\
participant.nodes.forEach((node) => found.nodes.add(node));\n\
found.participants += 1;\n\
}\n\
return [...hosts.values()];\n\
}\n\
function showHosts(report, place) {\n\
const hosts = hostsOf(report);\n\
place.hidden = hosts.length === 0;\n\
fill(place, ...hosts.slice(0, NAMED_HOSTS).map((host) => make('li', null, ...hostParts(host))),\n\
hosts.length > NAMED_HOSTS && make('li', null, `and ${plural(hosts.length - NAMED_HOSTS, 'more host')}`));\n\
}\n\
function hostParts({ host, addresses, nodes, participants }) {\n\
const names = [...addresses].join(', ');\n\
const name = host === null ? names || 'no host and no address announced' : host;\n\
return [make('b', null, name), host !== null && names && ` (${names})`, `: ${plural(participants, 'participant')}`,\n\
nodes.size > 0 && `, ${nodes.size === 1 ? 'node' : 'nodes'} ${nodesText({ nodes: [...nodes] }, NAMED_NODES)}`];\n\
}\n\
function showNotes({ data: { notes } }) {\n\
const section = document.getElementById('notes');\n\
section.hidden = notes.length === 0;\n\
section.append(make('ul', { class: 'notes' }, ...notes.map((note) => {\n\
const [what, ...todo] = note.split(' -> ');\n\
return make('li', null, make('b', null, what), ...todo.map((words) => make('span', { class: 'todo' }, words)));\n\
})));\n\
}\n\
const MEANINGS = {\n\
datagrams: 'datagrams in the recording',\n\
refused: 'malformed datagrams, also those of one octet or none; what stands before the fault is used',\n\
skipped: 'submessages that are not read: padding, vendors’ own, security',\n\
fragments: 'submessages of fragmented samples that were not read as samples',\n\
undirected: 'ACKNACKs that name no participant as destination',\n\
unsettled: 'endpoints whose announcements by discovery differ',\n\
ignored: 'frames of the capture that gave no datagram',\n\
pieces: 'ignored frames that are pieces of packets that never came whole',\n\
cut: 'ignored frames whose captured octets end too early',\n\
other: 'ignored frames that carry no UDP over IP',\n\
links: 'ignored frames of links that are not read',\n\
wrong_way: 'pairs of which the two recordings are the wrong way round',\n\
};\n\
function showCounts(report) {\n\
document.getElementById('counts').append(make('dl', { class: 'counts' }, ...report.counts().map(([name, n]) => make('div', null,\n\
make('dt', null, name.replaceAll('_', ' ')), make('dd', { class: 'count' }, counted(n)), make('dd', null, MEANINGS[name] || '')))));\n\
}\n\
</script>\n\
<script>'use strict';\n\
const MOST_STRIPS = 20;\n\
const STRIP_HEIGHT = 32;\n\
const COLUMN = 2;\n\
const LEAST_BAND = 3;\n\
const MOST_MARKS = 2000;\n\
const MOST_LOOKED_UP = 20000;\n\
const BAND_GAP = 8;\n\
const MARK_FORMS = {\n\
joins: (x) => `M${x + 1} 23l4 8h-8z`,\n\
leaves: (x) => `M${x + 1} 31l4-8h-8z`,\n\
silent: (x) => `M${x - 2.5} 24h7v7h-7z`,\n\
missed: (x) => `M${x - 0.5} 1h3v20h-3z`,\n\
unsent: (x) => `M${x - 1.5} 2h5v18h-5z`,\n\
unanswered: (x) => `M${x - 0.5} 11h3v10h-3z`,\n\
not_arrived: (x) => `M${x - 3} 5l8 13m0-13l-8 13`,\n\
};\n\
const SIGN_TOPS = { joins: 16, leaves: 16, silent: 16, unanswered: 5 };\n\
const MARK_WORDS = {\n\
missed: 'missed', unsent: 'unsent', unanswered: 'unanswered', not_arrived: 'not arrived', joins: 'a reader joins', leaves: 'a reader leaves',\n\
silent: 'a participant falls silent',\n\
};\n\
const pictured = (report) => [...report.groups].sort((a, b) => worse(a, b) || a.at - b.at);\n\
class Picture {\n\
constructor(report, section) {\n\
Object.assign(this, { report, section, axis: report.axis(), groups: pictured(report).slice(0, MOST_STRIPS), width: 0 });\n\
section.hidden = report.groups.length === 0;\n\
if (section.hidden) return;\n\
this.strips = this.groups.map((group) => ({ group, ...stripPoints(report, group), place: drawn('svg', { class: 'strip-picture', 'aria-hidden': 'true' }) }));\n\
this.scale = drawn('svg', { class: 'strip-axis', 'aria-hidden': 'true' });\n\
this.build();\n\
new ResizeObserver(() => this.draw()).observe(this.scale);\n\
}\n\
build() {\n\
const { report, groups, strips } = this;\n\
const more = report.groups.length - groups.length;\n\
const kinds = Object.keys(MARK_WORDS).filter((kind) => strips.some(({ points }) => points[kind].length > 0));\n\
this.section.append(\n\
make('p', { class: 'hint' }, `Each strip is a topic with reliable pairs, the worst first${more > 0 ? `; ${plural(more, 'more topic')} of less weight ${more === 1 ? 'has' : 'have'} none` : ''}. `\n\
+ `To the right runs the recording, in ${this.axis.word === 's' ? 'seconds' : 'datagrams'}. A lost number stands where it was first sent, or, where it never was, where the writer first told of it. A strip leads to its pairs.`),\n\
pictureLegend(kinds),\n\
make('div', { class: 'strips' }, ...strips.map((strip) => this.strip(strip)),\n\
make('div', { class: 'strip axis-line' }, make('span', { class: 'strip-name' }, this.axis.word === 's' ? 'seconds' : 'datagrams'), this.scale, make('span', { class: 'strip-words' }))));\n\
}\n\
strip({ group, place, points }) {\n\
const said = stripWords(group, points);\n\
return make('a', { class: `strip${group.clean ? '' : ' bad'}`, href: `#topic-${group.at + 1}` },\n\
make('span', { class: 'strip-name' }, shownTopic(group.topic)), place,\n\
make('span', { class: 'strip-words' }, ...said));\n\
}\n\
draw() {\n\
const width = this.scale.clientWidth;\n\
if (width === 0 || width === this.width) return;\n\
this.width = width;\n\
const marks = ticks(this.axis.low, this.axis.high, Math.max(2, width / 110), this.axis.word === 's' ? 0.001 : 1);\n\
const grid = marks.map((x) => `M${Math.round(this.pixel(x)) + 0.5} 0V${STRIP_HEIGHT}`).join('');\n\
for (const strip of this.strips) this.drawStrip(strip, grid);\n\
fitTo(this.scale, width, 18);\n\
this.scale.replaceChildren(...marks.map((x) => this.tick(x)));\n\
}\n\
pixel(x) {\n\
const { low, high } = this.axis;\n\
return 6 + (x - low) / Math.max(high - low, 0.001) * (this.width - 12);\n\
}\n\
tick(x) {\n\
const at = this.pixel(x);\n\
const anchor = at < 20 ? 'start' : at > this.width - 24 ? 'end' : 'middle';\n\
return drawn('text', { x: anchor === 'start' ? 0 : Math.min(at, this.width), y: 13, 'text-anchor': anchor }, this.axis.word === 's' ? shortSecond(x) : shortNumber(x));\n\
}\n\
drawStrip({ place, points, samples, spans }, grid) {\n\
fitTo(place, this.width, STRIP_HEIGHT);\n\
const columns = (values) => [...new Set(values.map((x) => Math.floor(this.pixel(x) / COLUMN) * COLUMN))].sort((a, b) => a - b);\n\
const band = [...bandRuns(columns(samples)), ...spans.map(([from, to]) => [this.pixel(from), this.pixel(to)])];\n\
place.replaceChildren(\n\
drawn('path', { class: 'grid', d: grid }),\n\
drawn('path', { class: 'samples', d: band.map(([from, to]) => `M${from} 8h${Math.max(LEAST_BAND, to - from)}v8H${from}z`).join('') }),\n\
...Object.entries(MARK_FORMS).map(([kind, form]) => drawn('path', { class: `mark ${kind}`, d: columns(points[kind]).slice(0, MOST_MARKS).map(form).join('') })));\n\
}\n\
}\n\
function fitTo(picture, width, height) {\n\
for (const [name, value] of Object.entries({ viewBox: `0 0 ${width} ${height}`, preserveAspectRatio: 'none' })) picture.setAttribute(name, value);\n\
}\n\
function bandRuns(columns) {\n\
const runs = [];\n\
for (const x of columns) {\n\
const last = runs[runs.length - 1];\n\
if (last && x - last[1] <= BAND_GAP) last[1] = x + COLUMN;\n\
else runs.push([x, x + COLUMN]);\n\
}\n\
return runs;\n\
}\n\
function stripWords(group, points) {\n\
const kinds = LOST_KINDS.map((kind) => [kind, lostCount(group, kind)]).filter(([, count]) => isAbove(count, 0));\n\
const words = kinds.map(([kind, count]) => make('b', { class: 'lost-words' }, `${counted(count)} ${MARK_WORDS[kind]}`)).flatMap((word, at) => (at > 0 ? [', ', word] : [word]));\n\
const unsent = points.neverSent > 0 && `, ${counted(points.neverSent)} of them never sent here`;\n\
return words.length > 0 ? [...words, unsent] : [group.clean ? 'clean' : 'not clean'];\n\
}\n\
const LOST_KINDS = ['missed', 'unsent', 'unanswered', 'not_arrived'];\n\
function lostCount({ sums, held }, kind) {\n\
if (kind === 'not_arrived') return sumOf(held, lostOf);\n\
return differenceOf(sums[kind], sumOf(held, ({ outcomes }) => outcomes[kind]));\n\
}\n\
function stripPoints(report, group) {\n\
const points = Object.fromEntries(Object.keys(MARK_FORMS).map((kind) => [kind, []]));\n\
const left = { numbers: MOST_LOOKED_UP };\n\
points.neverSent = 0;\n\
for (const row of group.rows) {\n\
if (row.lost !== 0) addLost(report, row, points, left);\n\
addReader(report, row, points);\n\
}\n\
return { points, samples: samplesOf(report, group), spans: spansOf(report, group) };\n\
}\n\
function addLost(report, row, points, left) {\n\
const sendings = report.sendingsOf(row);\n\
for (const kind of LOST_KINDS.filter((kind) => row.numbers[kind] && (kind === 'not_arrived' || !isHeld(row)))) {\n\
for (const range of row.numbers[kind].ranges) {\n\
const places = range.sent ? sentPlaces(report, range, sendings, left) : toldPlaces(report, row, range, left);\n\
if (!range.sent && kind !== 'unsent') points.neverSent += Number(range.last) - Number(range.first) + 1;\n\
for (const x of places) if (x !== null && x !== undefined) points[kind].push(x);\n\
}\n\
}\n\
}\n\
function sentPlaces(report, { first, last, sent }, sendings, left) {\n\
const place = report.onAxis(sent);\n\
const found = [place];\n\
for (let number = first + 1; number <= last && left.numbers > 0; number += 1) {\n\
const entry = sendings(number);\n\
left.numbers -= 1;\n\
if (entry) found.push(report.placeOf(entry[0]) ?? place);\n\
}\n\
return found;\n\
}\n\
function toldPlaces(report, row, { first, last }, left) {\n\
const told = report.tellingsOf(row);\n\
if (told === null) return [row.announced ? report.onAxis(row.announced) : null];\n\
const found = [];\n\
for (let number = Number(first); number <= Number(last) && left.numbers > 0; number += 1) {\n\
left.numbers -= 1;\n\
const entry = firstFrom(told, number);\n\
if (entry) found.push(report.placeOf(entry[0]));\n\
}\n\
return found;\n\
}\n\
function firstFrom(steps, number) {\n\
let [low, high] = [0, steps.length];\n\
while (low < high) {\n\
const middle = (low + high) >> 1;\n\
if (steps[middle][1] >= number) high = middle;\n\
else low = middle + 1;\n\
}\n\
return steps[low];\n\
}\n\
function addReader(report, row, points) {\n\
const joined = report.data.joined?.[row.at];\n\
if (joined) addPoint(points.joins, report.isTimed ? joined[2] : joined[0]);\n\
if (row.until !== null) addPoint(points.leaves, report.onAxis({ datagram: row.until, time: row.until_time }));\n\
for (const guid of report.hasSilent ? [row.reader, row.writer] : []) {\n\
const announced = report.participantOf(guid)?.announced;\n\
if (announced?.silent) addPoint(points.silent, report.onAxis({ datagram: announced.last, time: announced.last_time }));\n\
}\n\
}\n\
function addPoint(points, x) {\n\
if (x !== null && x !== undefined) points.push(x);\n\
}\n\
function samplesOf(report, { rows }) {\n\
const writers = [...new Set(rows.map(({ writer }) => writer))].filter((writer) => report.acts.has(writer));\n\
return writers.flatMap((writer) => report.acts.get(writer).filter(([, , what]) => IS_SENDING.has(what)).map(([datagram]) => report.placeOf(datagram)))\n\
.filter((x) => x !== undefined);\n\
}\n\
function spansOf(report, { rows }) {\n\
const spans = new Map();\n\
let [writer, span] = [null, null];\n\
for (const row of rows) {\n\
if (row.writer !== writer) {\n\
writer = row.writer;\n\
span = report.acts.has(writer) ? null : entryOf(spans, writer, () => [Infinity, -Infinity]);\n\
}\n\
if (span !== null) widen(span, report, row);\n\
}\n\
return [...spans.values()].filter(([from, to]) => from <= to);\n\
}\n\
function widen(span, report, { announced, told, claimed, acknowledged }) {\n\
for (const place of [announced, told, claimed, acknowledged]) {\n\
const x = place ? report.onAxis(place) : null;\n\
if (x === null) continue;\n\
span[0] = Math.min(span[0], x);\n\
span[1] = Math.max(span[1], x);\n\
}\n\
}\n\
function pictureLegend(kinds) {\n\
const sign = (top, shape) => drawn('svg', { viewBox: `0 ${top} 24 22`, width: '20', height: '18', 'aria-hidden': 'true' }, shape);\n\
return make('ul', { class: 'legend' }, make('li', null, sign(1, drawn('path', { class: 'samples', d: 'M1 8h22v8H1z' })), 'samples'),\n\
...kinds.map((kind) => make('li', null, sign(SIGN_TOPS[kind] || 0, drawn('path', { class: `mark ${kind}`, d: MARK_FORMS[kind](11) })), MARK_WORDS[kind])));\n\
}\n\
</script>\n\
<script>'use strict';\n\
const EVENT_LINES = [8, 200];\n\
const EVENTS_SHOWN = [6, 50];\n\
const NAMED_PAIRS = 3;\n\
function topicLines(rows) {\n\
const lines = new Map();\n\
for (const row of rows) {\n\
if (row.advice !== null) entryOf(entryOf(entryOf(lines, row.group, newMap), row.kind, newMap), row.advice, () => []).push(row);\n\
}\n\
return [...lines.values()].flatMap((kinds) => [...kinds.values()]).flatMap((found) => [...found.values()]).map(weighed)\n\
.sort((one, other) => worse(one, other) || other.rows.length - one.rows.length || one.rows[0].at - other.rows[0].at).map((line) => line.rows);\n\
}\n\
const newMap = () => new Map();\n\
const weighed = (rows) => ({ rows, clean: rows[0].clean, rank: rows[0].rank, isPlumbing: rows[0].isPlumbing, lost: sumOf(rows, ({ lost }) => lost) });\n\
function eventsOf({ data, rows }) {\n\
const events = (data.events || []).map(({ text, pairs }) => ({ text, rows: pairs.map((at) => rows[at]) }));\n\
const told = new Set(events.flatMap((event) => event.rows));\n\
const others = rows.filter((row) => row.advice !== null && !told.has(row));\n\
const head = events.length > 0 && others.length > 0 ? 'Other pairs to look at' : null;\n\
return others.length > 0 ? [...events, { text: head, rows: others }] : events;\n\
}\n\
function showHappened(report, section) {\n\
const events = eventsOf(report);\n\
section.hidden = events.length === 0 && report.rows.length > 0;\n\
if (report.rows.length === 0) section.append(noPairPart());\n\
if (events.length === 0) return;\n\
const list = make('div', { class: 'events' });\n\
section.append(list);\n\
inParts(section, 'event', events, EVENTS_SHOWN, (some) => {\n\
const shown = some.map((event) => eventPart(report, event));\n\
list.append(...shown);\n\
return shown;\n\
});\n\
}\n\
function noPairPart() {\n\
const [what, ...why] = firstLines();\n\
return make('div', { class: 'event no-pair' }, make('h3', null, what), ...why.map((line) => make('p', { class: 'advice' }, line)));\n\
}\n\
function eventPart(report, { text, rows }) {\n\
const body = make('tbody', null);\n\
const head = text === null ? null : `${text[0].toUpperCase()}${text.slice(1)}`;\n\
const part = make('div', { class: 'event', tabindex: '-1' }, head !== null && make('h3', null, head),\n\
make('table', { class: 'topics' }, make('caption', { class: 'hidden' }, head ?? 'Topics with something to look at'), tableHead('Topic', 'What happened', 'What to do'), body));\n\
inParts(part, 'line', topicLines(rows), EVENT_LINES, (some) => {\n\
const shown = some.map((line) => topicLine(report, line));\n\
body.append(...shown);\n\
return shown;\n\
});\n\
return part;\n\
}\n\
function topicLine(report, rows) {\n\
const [first] = rows;\n\
const { topic, rows: all } = first.group;\n\
const links = rows.slice(0, NAMED_PAIRS).map((row) => make('li', null, pairLink(report, row)));\n\
return make('tr', { class: first.kind, tabindex: '-1' },\n\
make('th', { scope: 'row' }, oneName('b', shownTopic(topic)), make('div', { class: 'type' }, oneName('span', rosType(first.type) || first.type))),\n\
make('td', null, make('p', null, badge(first.kind, KIND_WORDS[first.kind]), ` ${counted(rows.length)} of ${plural(all.length, 'pair')}`, ...lineCounts(rows)),\n\
make('p', null, rows.length > 1 && `Pair ${first.at + 1}: `, verdictSentence(first)),\n\
make('ul', { class: 'which' }, ...links, rows.length > NAMED_PAIRS && make('li', null, `and ${counted(rows.length - NAMED_PAIRS)} more`))),\n\
make('td', { class: 'advice' }, first.advice));\n\
}\n\
function lineCounts(rows) {\n\
const held = rows.filter(isHeld);\n\
const losing = rows.filter(({ lost }) => lost !== 0);\n\
const counts = held.length > 0 ? [['not arrived', sumOf(held, lostOf)]] : LOST.map((kind) => [kind, sumOf(losing, ({ outcomes }) => outcomes[kind])]);\n\
return counts.filter(([, count]) => isAbove(count, 0)).flatMap(([kind, count]) => [' ', badge('missed', `${kind} ${counted(count)}`)]);\n\
}\n\
function pairLink(report, row) {\n\
return make('a', { href: `#pair-${row.at + 1}` }, `pair ${row.at + 1}`,\n\
make('span', { class: 'ends' }, `: ${endText(report, row.writer, row.writer_node)} to ${endText(report, row.reader, row.reader_node)}`));\n\
}\n\
</script>\n\
<script>'use strict';\n\
const TALK_LINES = [10, 200];\n\
function showTalk(report) {\n\
const section = document.getElementById('talk');\n\
const { untold = [], lives = [], late = [], unmatched, talking, one_way: oneWay, unobserved } = report.data;\n\
const alone = aloneTopics(report);\n\
section.hidden = [untold, lives, late, unmatched, talking, oneWay, alone, unobserved].every((items) => items.length === 0);\n\
const ends = endsOf(report);\n\
talkTable(section, 'untold', 'Participants that were not told of endpoints', ['Participant that was not told', 'Whose endpoints', 'Which endpoints'], untold,\n\
({ from, to, ...which }) => [endpointName(report, to), endpointName(report, from), untoldLines(report, which)]);\n\
talkTable(section, 'lives', 'Participants with two lives under one GUID', ['Participant', 'Announced at'], lives,\n\
({ participant, address, sent }) => [livingName(report, participant, address), [sent.map(sourceTime).join(' and ')]]);\n\
talkTable(section, 'late', 'Pairs that matched late', ['Topic', 'Writer', 'Reader', 'Matched'], late,\n\
(one) => [...ends(one), [lateText(one)]]);\n\
talkTable(section, 'unmatched', 'Endpoints that do not match', ['Topic', 'Writer', 'Reader', 'What does not fit'], unmatched,\n\
(one) => [...ends(one), unfitLines(one)]);\n\
talkTable(section, 'talking', 'Endpoints that would not match by the standard, and talk', ['Topic', 'Writer', 'Reader', 'What does not fit'], talking,\n\
(one) => [...ends(one), [one.because.map(spaced).join(', ')]]);\n\
talkTable(section, 'one-way', 'Participants that talk one way', ['Participant that never answers', 'Who names it', 'Datagrams'], oneWay,\n\
({ from, to, named }) => [endpointName(report, to), endpointName(report, from), [counted(named)]]);\n\
showAlone(section, alone);\n\
showLeftOut(section, unobserved, ends);\n\
}\n\
function untoldLines(report, { writers, readers, unnamed }) {\n\
const line = (side) => (guid) => {\n\
const endpoint = report.endpointOf.get(guid);\n\
return make('div', null, `${side} of `, endpoint ? oneName('b', shownTopic(endpoint.topic)) : guidText(guid));\n\
};\n\
return [...writers.map(line('writer')), ...readers.map(line('reader')), isAbove(unnamed, 0) && make('div', null, `${counted(unnamed)} without a name here`)];\n\
}\n\
function livingName(report, guid, address) {\n\
const isThere = report.participantOf(guid) !== undefined;\n\
return [...endpointName(report, guid), !isThere && address !== null && ` at ${address}`];\n\
}\n\
const sourceTime = (seconds) => (seconds < 1e8 ? `${seconds.toFixed(3)} s` : `${momentText(Math.round(seconds * 1000), 0)} UTC`);\n\
const lateText = ({ seconds, matched }) => `${seconds.toFixed(3)} s after both were there, in ${placeText(matched)}`;\n\
function aloneTopics({ data: { endpoints } }) {\n\
const topics = new Map();\n\
for (const { topic, side } of endpoints) entryOf(topics, topic, () => ({ topic, writer: 0, reader: 0 }))[side] += 1;\n\
const isService = ({ topic }) => /^r[qr]\\//.test(topic);\n\
return [...topics.values()].filter(({ writer, reader }) => writer === 0 || reader === 0)\n\
.sort((a, b) => Number(isService(a)) - Number(isService(b)) || byText('topic')(a, b));\n\
}\n\
function showAlone(section, alone) {\n\
if (alone.length === 0) return;\n\
const written = alone.filter(({ reader }) => reader === 0).length;\n\
const words = [[written, 'no reader'], [alone.length - written, 'no writer']].filter(([count]) => count > 0).map(([count, what]) => `${counted(count)} with ${what}`);\n\
section.append(makeFold({ class: 'talk-fold' }, [make('b', null, plural(alone.length, 'topic with one side alone', 'topics with one side alone')), `: ${words.join(', ')}`], () => {\n\
const part = make('div', null);\n\
talkTable(part, 'alone', null, ['Topic', 'Writers', 'Readers'], alone, ({ topic, writer, reader }) => [topicName(topic), [counted(writer)], [counted(reader)]]);\n\
return [part];\n\
}));\n\
}\n\
const endsOf = (report) => ({ topic, writer, reader }) => (\n\
[[oneName('b', shownTopic(topic))], endpointBriefly(report, writer), endpointBriefly(report, reader)]);\n\
function showLeftOut(section, unobserved, ends) {\n\
if (unobserved.length === 0) return;\n\
const reasons = new Map();\n\
for (const { because } of unobserved) reasons.set(because, (reasons.get(because) || 0) + 1);\n\
const why = [...reasons].map(([because, count]) => `${counted(count)} ${because}`).join(', ');\n\
section.append(makeFold({ class: 'talk-fold' }, [make('b', null, `${plural(unobserved.length, 'pair')} ${unobserved.length === 1 ? 'is' : 'are'} left out`), `: ${why}`], () => {\n\
const part = make('div', null);\n\
talkTable(part, 'unobserved', null, ['Topic', 'Writer', 'Reader', 'Why'], unobserved, (one) => [...ends(one), [one.because]]);\n\
return [part];\n\
}));\n\
}\n\
function showBestEffort(report) {\n\
const section = document.getElementById('best-effort');\n\
const { best_effort: bestEffort, arrived = [] } = report.data;\n\
const lacking = arrived.filter(({ not_arrived: named }) => named.length > 0).sort(byText('topic'));\n\
const ends = endsOf(report);\n\
section.hidden = bestEffort.length === 0 && lacking.length === 0;\n\
talkTable(section, 'best-effort', null, ['Topic', 'Pairs', 'Numbers in this recording'], bestEffort,\n\
({ topic, pairs, numbers, recorded }) => [[oneName('b', shownTopic(topic))], [counted(pairs)], [`${counted(recorded)} of ${counted(numbers)}`]]);\n\
talkTable(section, 'not-arrived', lackingHead(lacking), ['Topic', 'Writer', 'Reader', 'Numbers at the reader’s host'], lacking,\n\
(one) => [...ends(one), [`arrived ${counted(one.arrived)} of ${counted(one.numbers)}, not ${listed(one.not_arrived, lackingOf(one))}`]]);\n\
}\n\
const lackingOf = ({ numbers, arrived }) => BigInt(numbers) - BigInt(arrived);\n\
const lackingHead = (pairs) => `${plural(sumOf(pairs, lackingOf), 'number')} of ${plural(pairs.length, 'best-effort pair')} did not arrive`;\n\
const spaced = (policy) => policy.replaceAll('_', ' ');\n\
function unfitLines({ because, offered, requested }) {\n\
return because.map((policy, at) => {\n\
const [offer, request] = [offered[at], requested[at]].map((text) => (policy === 'type' && rosType(text)) || text);\n\
return make('div', null, `${spaced(policy)}: offers ${offer}; asks for ${request}`);\n\
});\n\
}\n\
const CAPTIONS = { alone: 'Topics with one side alone', unobserved: 'Pairs that are left out', 'best-effort': 'Pairs of best effort' };\n\
function talkTable(section, name, head, heads, items, cellsOf) {\n\
if (items.length === 0) return;\n\
const body = make('tbody', null);\n\
const table = make('table', { class: `talk ${name}` }, make('caption', { class: 'hidden' }, head ?? CAPTIONS[name]), tableHead(...heads), body);\n\
const part = make('div', { class: 'talk-part' }, head !== null && make('h3', null, head), make('div', { class: 'wide' }, table));\n\
section.append(part);\n\
inParts(part, 'line', items, TALK_LINES, (some) => {\n\
const rows = some.map((item) => make('tr', { tabindex: '-1' },\n\
...cellsOf(item).map((cell, at) => make(at === 0 ? 'th' : 'td', at === 0 ? { scope: 'row' } : null, ...cell))));\n\
body.append(...rows);\n\
return rows;\n\
});\n\
}\n\
</script>\n\
<script>'use strict';\n\
const CHART_HEIGHT = 320;\n\
const EDGES = { left: 64, right: 14, top: 18, bottom: 34 };\n\
const REACH = 12;\n\
const MANY_DOTS = 3000;\n\
const MANY_ANSWERS = 150;\n\
const POINT = 'Point at a dot to read it.';\n\
const MOST_LOST = 5000;\n\
const MOST_ARRIVED = 100000;\n\
function marksOf(report, row, axis) {\n\
const acts = report.actsOf(row).map((entry) => entryParts(entry, axis));\n\
const to = namesOf(row.reader);\n\
const heard = acts.filter(({ named }) => to.includes(named));\n\
const answers = report.basesOf(row).map(([datagram, at, base, asked]) => ({ x: axis.at(datagram), y: Number(base) - 1, at, asked }));\n\
const sent = heard.filter(({ what }) => IS_SENDING.has(what));\n\
const dots = dotsOf(heard);\n\
const announced = stepsOf(acts.filter(({ what }) => what === 'announced').map(({ x, numbers: [last] }) => ({ x, y: Number(last) })));\n\
const told = stepsOf(acts.filter(({ what }) => what !== 'gone').map(({ x, numbers: [last] }) => ({ x, y: Number(last) })));\n\
return {\n\
dots,\n\
bands: bandsOf(heard.filter(({ what }) => what === 'gone')),\n\
announced,\n\
answers,\n\
acknowledged: stepsOf(answers),\n\
asked: answers.flatMap(({ x, asked }) => asked.map((number) => ({ x, y: Number(number) }))),\n\
lost: lostMarks(row, sent.map(({ x, numbers: [number] }) => ({ x, y: Number(number) })), told, axis),\n\
arrived: arrivedDots(row, dots),\n\
numbers: markedNumbers(row),\n\
datagrams: row.verdict === 'unfounded' ? [{ x: axis.at(row.datagram), label: `datagram ${row.datagram}` }] : [],\n\
};\n\
}\n\
function lostMarks({ numbers }, sendings, told, axis) {\n\
const sent = firstOf(sendings);\n\
return Object.keys(LOST_WORDS).filter((kind) => numbers[kind]).flatMap((kind) => (\n\
eachNumber(numbers[kind].ranges, MOST_LOST).map((number) => {\n\
const dot = sent.get(number);\n\
const x = dot ? dot.x : (told.find(({ y }) => y >= number) || { x: axis.low }).x;\n\
return { x, y: number, kind, isSent: dot !== undefined };\n\
})));\n\
}\n\
function firstOf(dots) {\n\
const found = new Map();\n\
for (const dot of dots) if (!found.has(dot.y)) found.set(dot.y, dot);\n\
return found;\n\
}\n\
function eachNumber(ranges, most) {\n\
const numbers = [];\n\
for (const { first, last } of ranges) {\n\
for (let number = Number(first); number <= Number(last) && numbers.length < most; number += 1) numbers.push(number);\n\
}\n\
return numbers;\n\
}\n\
function arrivedDots(row, dots) {\n\
if (!isHeld(row)) return [];\n\
const { ranges, more } = row.numbers.not_arrived || { ranges: [], more: 0 };\n\
const lacking = new Set(eachNumber(ranges, MOST_ARRIVED));\n\
const end = more > 0 || lacking.size === MOST_ARRIVED ? Math.max(...lacking) : Infinity;\n\
return [...firstOf(dots).values()].filter(({ y }) => y >= row.from && y <= end && !lacking.has(y)).map(({ x, y }) => ({ x, y }));\n\
}\n\
function axisOf(report, row) {\n\
const drawn = [...report.actsOf(row), ...report.basesOf(row)].map(([datagram]) => datagram);\n\
const seconds = drawn.map((datagram) => report.secondOf(datagram));\n\
const isTimed = drawn.length > 0 && !seconds.includes(undefined);\n\
const ends = isTimed ? endsOfAll(seconds) : endsOfAll(drawn);\n\
if (!isTimed) {\n\
const high = Math.max(2, report.data.datagrams + 1);\n\
return {\n\
word: 'datagram', name: 'Datagrams', at: (datagram) => datagram, low: 0, high, own: within(ends, 1, [0, high]), window: 4, step: 1, text: shortNumber,\n\
};\n\
}\n\
const last = Math.max(ends[1], report.seconds());\n\
const room = Math.max(0.01, last * 0.01);\n\
const [low, high] = [Math.min(0, ends[0]) - room, last + room];\n\
return {\n\
word: 's', name: 'Seconds', at: (datagram) => report.secondOf(datagram), low, high, own: within(ends, Math.max(0.01, (ends[1] - ends[0]) * 0.02), [low, high]),\n\
window: 0.02, step: 0.001, text: shortSecond,\n\
};\n\
}\n\
const endsOfAll = (values) => [values.reduce((a, b) => Math.min(a, b), Infinity), values.reduce((a, b) => Math.max(a, b), -Infinity)];\n\
const within = ([first, last], room, [low, high]) => (first > last ? [low, high] : [Math.max(low, first - room), Math.min(high, last + room)]);\n\
function entryParts([datagram, at, what, ...rest], axis) {\n\
const count = numbersIn(what);\n\
return { x: axis.at(datagram), datagram, at, what, numbers: rest.slice(0, count), named: rest[count] };\n\
}\n\
function markedNumbers({ verdict, number, first_missed: missed }) {\n\
const found = [{ y: Number(number), label: `${verdict} ${number}` }];\n\
return missed && missed.number !== number ? [...found, { y: Number(missed.number), label: `missed ${missed.number}` }] : found;\n\
}\n\
function dotsOf(entries) {\n\
const [seen, whole, twice] = [new Set(), new Set(), sentTwice(entries)];\n\
const dots = [];\n\
for (const { x, what, datagram, at, numbers: [number] } of entries) {\n\
const isWhole = what === 'sample';\n\
if (what !== 'data' && (!isWhole || whole.has(number))) continue;\n\
dots.push({ x, y: Number(number), number, datagram, at, isWhole, again: seen.has(number) || (isWhole && twice.has(number)) });\n\
seen.add(number);\n\
if (isWhole) whole.add(number);\n\
}\n\
return dots;\n\
}\n\
function sentTwice(entries) {\n\
const [sent, twice] = [new Set(), new Set()];\n\
for (const { what, numbers: [number, first, count] } of entries) {\n\
for (let fragment = first; what === 'piece' && fragment < first + count; fragment += 1) {\n\
const name = `${number} ${fragment}`;\n\
if (sent.has(name)) twice.add(number);\n\
sent.add(name);\n\
}\n\
}\n\
return twice;\n\
}\n\
function bandsOf(entries) {\n\
const bands = [];\n\
let below = 0;\n\
for (const { x, numbers } of entries) {\n\
const [low, high] = numbers.map(Number);\n\
if (high <= below) continue;\n\
const follows = low <= below + 1;\n\
bands.push({ x, low: follows ? below + 1 : low, high, follows });\n\
if (follows) below = high;\n\
}\n\
return bands;\n\
}\n\
function stepsOf(points) {\n\
const steps = [];\n\
for (const point of points) {\n\
if (steps.length === 0 || point.y > steps[steps.length - 1].y) steps.push(point);\n\
}\n\
return steps;\n\
}\n\
function ticks(low, high, about, least = 1) {\n\
const rough = (high - low) / about;\n\
const power = 10 ** Math.floor(Math.log10(rough));\n\
const step = Math.max(least, [1, 2, 5, 10].map((n) => n * power).find((n) => n >= rough));\n\
const found = [];\n\
for (let at = Math.ceil(low / step) * step; at <= high && found.length < 50; at += step) found.push(at);\n\
return found;\n\
}\n\
const shortNumber = (n) => (n < 1e7 ? String(Math.round(n)) : n.toExponential(1).replace('e+', 'e'));\n\
const shortSecond = (s) => String(Number(s.toFixed(3)));\n\
class Chart {\n\
constructor(report, row) {\n\
this.axis = axisOf(report, row);\n\
this.marks = marksOf(report, row, this.axis);\n\
this.all = this.extent();\n\
Object.assign(this, { report, row, view: this.all, at: null, drag: null, width: 0, still: document.createElement('canvas') });\n\
this.canvas = make('canvas', {\n\
tabindex: '0', role: 'application', 'aria-label': this.description(row), 'aria-describedby': `chart-help-${row.at + 1}`,\n\
});\n\
this.readout = make('p', { class: 'readout', role: 'status' }, POINT);\n\
this.element = make('figure', { class: 'chart' }, this.canvas, this.readout, this.controls(), legend(this.marks),\n\
make('figcaption', { id: `chart-help-${row.at + 1}` }, `${this.axis.name} to the right, numbers upwards. Drag to zoom, double-click to show all. Keys: left and `\n\
+ 'right go from dot to dot, + and − zoom, Shift and an arrow move, 0 shows all, 1 the pair’s own span.'));\n\
this.listen();\n\
}\n\
extent() {\n\
const { dots, bands, announced, acknowledged, asked, numbers, lost } = this.marks;\n\
let top = 1;\n\
for (const { y, high } of [...announced, ...acknowledged, ...numbers, ...bands, ...lost]) top = Math.max(top, y ?? high);\n\
for (const marks of [dots, asked]) for (const { y } of marks) top = Math.max(top, y);\n\
return { x0: this.axis.low, x1: this.axis.high, y0: 0, y1: top * 1.06 + 1 };\n\
}\n\
ownSpan() {\n\
const [x0, x1] = this.axis.own;\n\
const { answers, dots, announced } = this.marks;\n\
const low = [...dots, ...answers, ...announced].reduce((least, { y }) => Math.min(least, y), this.all.y1);\n\
return this.within([x0, x1, Math.max(0, low - 2), this.all.y1]);\n\
}\n\
description(row) {\n\
const { dots, answers, asked, lost } = this.marks;\n\
const again = dots.filter((dot) => dot.again).length;\n\
const asks = asked.length > 0 ? `${plural(asked.length, 'number')} asked for, ` : '';\n\
const what = dots.some(({ isWhole }) => isWhole) ? plural(dots.length, 'sample') : plural(dots.length, 'DATA', 'DATA');\n\
return `Chart of ${this.axis.name.toLowerCase()} and numbers: ${what} to this reader, ${counted(again)} of them sent again, `\n\
+ `${plural(answers.length, 'answer')} of the reader, ${asks}${plural(lost.length, 'mark')} of lost numbers, and a line at ${row.verdict} ${row.number}.`;\n\
}\n\
controls() {\n\
const acts = [\n\
['Zoom in', () => this.zoom(0.5)], ['Zoom out', () => this.zoom(2)], ['Earlier', () => this.pan(-0.5, 0)], ['Later', () => this.pan(0.5, 0)],\n\
['Lower', () => this.pan(0, -0.5)], ['Higher', () => this.pan(0, 0.5)], ['Own span', () => this.show(this.ownSpan())], ['Show all', () => this.show(this.all)],\n\
];\n\
return make('div', { class: 'controls', role: 'group', 'aria-label': 'Chart' }, ...acts.map(([label, act]) => makeButton(null, label, act)));\n\
}\n\
listen() {\n\
const acts = {\n\
pointermove: (event) => this.pointed(event), pointerdown: (event) => this.pressed(event), pointerup: (event) => this.released(event),\n\
pointercancel: () => this.left(), pointerleave: () => this.left(), dblclick: () => this.show(this.all), keydown: (event) => this.key(event),\n\
};\n\
for (const [name, act] of Object.entries(acts)) this.canvas.addEventListener(name, act);\n\
new ResizeObserver(() => this.draw()).observe(this.canvas);\n\
}\n\
pixelX(x) {\n\
return EDGES.left + (x - this.view.x0) / (this.view.x1 - this.view.x0) * (this.width - EDGES.left - EDGES.right);\n\
}\n\
pixelY(y) {\n\
return CHART_HEIGHT - EDGES.bottom - (y - this.view.y0) / (this.view.y1 - this.view.y0) * (CHART_HEIGHT - EDGES.top - EDGES.bottom);\n\
}\n\
valueAt(px, py) {\n\
const { x0, x1, y0, y1 } = this.view;\n\
return {\n\
x: x0 + (px - EDGES.left) / (this.width - EDGES.left - EDGES.right) * (x1 - x0),\n\
y: y0 + (CHART_HEIGHT - EDGES.bottom - py) / (CHART_HEIGHT - EDGES.top - EDGES.bottom) * (y1 - y0),\n\
};\n\
}\n\
isInSight({ x, y }) {\n\
return x >= this.view.x0 && x <= this.view.x1 && y >= this.view.y0 && y <= this.view.y1;\n\
}\n\
nearest(px, py) {\n\
let [found, least] = [null, REACH * REACH];\n\
for (const dot of this.marks.dots) {\n\
const distance = (this.pixelX(dot.x) - px) ** 2 + (this.pixelY(dot.y) - py) ** 2;\n\
if (distance < least && this.isInSight(dot)) [found, least] = [dot, distance];\n\
}\n\
return found;\n\
}\n\
show(view) {\n\
this.view = view;\n\
this.draw();\n\
}\n\
zoom(factor) {\n\
const { x0, x1, y0, y1 } = this.view;\n\
const middle = this.at && this.isInSight(this.at) ? this.at : { x: (x0 + x1) / 2, y: (y0 + y1) / 2 };\n\
const side = (middle, low, high) => [middle - (middle - low) * factor, middle + (high - middle) * factor];\n\
this.show(this.within([...side(middle.x, x0, x1), ...side(middle.y, y0, y1)]));\n\
}\n\
pan(right, up) {\n\
const { x0, x1, y0, y1 } = this.view;\n\
const [dx, dy] = [right * (x1 - x0), up * (y1 - y0)];\n\
this.show(this.within([x0 + dx, x1 + dx, y0 + dy, y1 + dy]));\n\
}\n\
within([left, right, bottom, top]) {\n\
const fit = (low, high, least, most, smallest) => {\n\
const size = Math.min(Math.max(high - low, Math.min(smallest, most - least)), most - least);\n\
const start = Math.min(Math.max((low + high - size) / 2, least), most - size);\n\
return [start, start + size];\n\
};\n\
const [[x0, x1], [y0, y1]] = [fit(left, right, this.all.x0, this.all.x1, this.axis.window), fit(bottom, top, this.all.y0, this.all.y1, 4)];\n\
return { x0, x1, y0, y1 };\n\
}\n\
choose(dot) {\n\
if (dot === this.at) return;\n\
this.at = dot;\n\
this.readout.textContent = dot ? this.dotText(dot) : POINT;\n\
this.paint();\n\
}\n\
dotText({ number, datagram, at, again, isWhole, x }) {\n\
const place = placeText({ datagram, at, frame: this.report.frameOf(datagram), time: this.axis.word === 's' ? x : null });\n\
const kinds = this.marks.lost.filter((mark) => mark.y === Number(number)).map(({ kind }) => LOST_WORDS[kind].toLowerCase());\n\
const what = isWhole ? `DATA_FRAG that completes number ${number}` : `DATA of number ${number}`;\n\
const sentAgain = isWhole ? ', of which a fragment was sent again' : ', sent again';\n\
return `${what} in ${place}${again ? sentAgain : ''}${kinds.length > 0 ? `; ${number} is ${kinds.join(' and ')}` : ''}.`;\n\
}\n\
pointed({ offsetX, offsetY }) {\n\
if (!this.drag) {\n\
this.choose(this.nearest(offsetX, offsetY));\n\
return;\n\
}\n\
[this.drag.x1, this.drag.y1] = [offsetX, offsetY];\n\
this.paint();\n\
}\n\
pressed(event) {\n\
if (event.button !== 0) return;\n\
this.canvas.setPointerCapture(event.pointerId);\n\
this.drag = { x0: event.offsetX, y0: event.offsetY, x1: event.offsetX, y1: event.offsetY };\n\
}\n\
released({ offsetX, offsetY }) {\n\
const { drag, view: { x0, x1, y0, y1 } } = this;\n\
this.drag = null;\n\
if (!drag) return;\n\
const [a, b] = [this.valueAt(drag.x0, drag.y0), this.valueAt(drag.x1, drag.y1)];\n\
const [wide, high] = [Math.abs(drag.x1 - drag.x0) >= REACH, Math.abs(drag.y1 - drag.y0) >= REACH];\n\
const inOrder = (p, q) => [Math.min(p, q), Math.max(p, q)];\n\
if (wide || high) {\n\
this.show(this.within([...(wide ? inOrder(a.x, b.x) : [x0, x1]), ...(high ? inOrder(a.y, b.y) : [y0, y1])]));\n\
} else {\n\
this.choose(this.nearest(offsetX, offsetY));\n\
this.paint();\n\
}\n\
}\n\
left() {\n\
if (!this.drag) this.choose(null);\n\
}\n\
key(event) {\n\
const acts = event.shiftKey\n\
? { ArrowLeft: () => this.pan(-0.2, 0), ArrowRight: () => this.pan(0.2, 0), ArrowUp: () => this.pan(0, 0.2), ArrowDown: () => this.pan(0, -0.2) }\n\
: { ArrowLeft: () => this.step(-1), ArrowRight: () => this.step(1) };\n\
Object.assign(acts, { '+': () => this.zoom(0.5), '=': () => this.zoom(0.5), '-': () => this.zoom(2), 0: () => this.show(this.all), 1: () => this.show(this.ownSpan()) });\n\
if (event.ctrlKey || event.metaKey || event.altKey || !Object.hasOwn(acts, event.key)) return;\n\
event.preventDefault();\n\
acts[event.key]();\n\
}\n\
step(by) {\n\
const dots = this.marks.dots.filter((dot) => this.isInSight(dot));\n\
if (dots.length === 0) return;\n\
const at = dots.indexOf(this.at);\n\
this.choose(at < 0 ? dots.at(by > 0 ? 0 : -1) : dots[Math.min(Math.max(at + by, 0), dots.length - 1)]);\n\
}\n\
draw() {\n\
const { canvas, still } = this;\n\
this.width = canvas.clientWidth;\n\
if (this.width === 0) return;\n\
const scale = Math.max(2, window.devicePixelRatio || 1);\n\
for (const each of [canvas, still]) [each.width, each.height] = [Math.round(this.width * scale), CHART_HEIGHT * scale];\n\
this.style = getComputedStyle(canvas);\n\
this.pen = still.getContext('2d');\n\
this.pen.scale(scale, scale);\n\
this.drawAxes();\n\
this.pen.beginPath();\n\
this.pen.rect(EDGES.left, EDGES.top - 6, this.width - EDGES.left - EDGES.right, CHART_HEIGHT - EDGES.top - EDGES.bottom + 6);\n\
this.pen.clip();\n\
this.drawBands();\n\
this.drawSteps(this.marks.announced, '--announced', 1.25);\n\
this.drawSteps(this.marks.acknowledged, '--acknowledged', 3.5);\n\
this.drawAnswers();\n\
this.drawMarks();\n\
this.drawAsked();\n\
this.drawDots();\n\
this.drawLost();\n\
this.drawArrived();\n\
this.paint();\n\
}\n\
paint() {\n\
if (!this.style || !this.width) return;\n\
const { canvas, at, drag } = this;\n\
const pen = canvas.getContext('2d');\n\
pen.setTransform(1, 0, 0, 1, 0, 0);\n\
pen.clearRect(0, 0, canvas.width, canvas.height);\n\
pen.drawImage(this.still, 0, 0);\n\
pen.scale(canvas.width / this.width, canvas.height / CHART_HEIGHT);\n\
pen.strokeStyle = this.colour('--ink');\n\
if (at && this.isInSight(at)) {\n\
pen.lineWidth = 2;\n\
pen.beginPath();\n\
pen.arc(this.pixelX(at.x), this.pixelY(at.y), 7, 0, 7);\n\
pen.stroke();\n\
}\n\
pen.lineWidth = 1;\n\
if (drag) pen.strokeRect(Math.min(drag.x0, drag.x1), Math.min(drag.y0, drag.y1), Math.abs(drag.x1 - drag.x0), Math.abs(drag.y1 - drag.y0));\n\
}\n\
colour(name) {\n\
return this.style.getPropertyValue(name).trim();\n\
}\n\
penOf(colour, thickness) {\n\
Object.assign(this.pen, { strokeStyle: this.colour(colour), fillStyle: this.colour(colour), lineWidth: thickness });\n\
return this.pen;\n\
}\n\
line(x0, y0, x1, y1) {\n\
this.pen.beginPath();\n\
this.pen.moveTo(x0, y0);\n\
this.pen.lineTo(x1, y1);\n\
this.pen.stroke();\n\
}\n\
drawAxes() {\n\
const { view, width } = this;\n\
const pen = this.penOf('--faint', 1);\n\
Object.assign(pen, { font: `12px ${this.style.fontFamily}`, strokeStyle: this.colour('--line'), textBaseline: 'middle', textAlign: 'right' });\n\
for (const y of ticks(view.y0, view.y1, 6)) {\n\
this.line(EDGES.left, this.pixelY(y), width - EDGES.right, this.pixelY(y));\n\
pen.fillText(shortNumber(y), EDGES.left - 8, this.pixelY(y));\n\
}\n\
pen.fillText(this.axis.word, width - EDGES.right, CHART_HEIGHT - 8);\n\
pen.textBaseline = 'top';\n\
for (const x of ticks(view.x0, view.x1, Math.max(2, width / 110), this.axis.step)) {\n\
this.line(this.pixelX(x), CHART_HEIGHT - EDGES.bottom, this.pixelX(x), CHART_HEIGHT - EDGES.bottom + 4);\n\
pen.textAlign = this.pixelX(x) > width - 30 ? 'right' : 'center';\n\
pen.fillText(this.axis.text(x), Math.min(this.pixelX(x), width - 4), CHART_HEIGHT - EDGES.bottom + 6);\n\
}\n\
Object.assign(pen, { textAlign: 'left', textBaseline: 'middle' });\n\
pen.fillText('number', 4, 8);\n\
}\n\
drawBands() {\n\
const pen = this.penOf('--band-edge', 1);\n\
const right = this.pixelX(this.all.x1);\n\
const drawn = new Set();\n\
pen.fillStyle = this.colour('--band');\n\
this.outline(this.marks.bands.filter(({ follows }) => follows).map(({ x, high }) => ({ x, y: high + 0.5 })));\n\
pen.lineTo(right, this.pixelY(0));\n\
pen.fill();\n\
pen.stroke();\n\
for (const { x, low, high } of this.marks.bands.filter(({ follows }) => !follows)) {\n\
const [left, top, bottom] = [this.pixelX(x), this.pixelY(high + 0.5), this.pixelY(low - 0.5)];\n\
const key = `${Math.round(left)} ${Math.round(top)} ${Math.round(bottom)}`;\n\
if (drawn.has(key) || left > this.width) continue;\n\
drawn.add(key);\n\
pen.fillRect(left, top, right - left, Math.max(1, bottom - top));\n\
pen.strokeRect(left, top, right - left, bottom - top);\n\
}\n\
}\n\
outline(steps) {\n\
const { pen } = this;\n\
pen.beginPath();\n\
let [y, column] = [this.pixelY(0), null];\n\
steps.forEach((step, at) => {\n\
const x = this.pixelX(step.x);\n\
if (column === null) pen.moveTo(x, y);\n\
column = Math.round(x);\n\
if (at + 1 < steps.length && Math.round(this.pixelX(steps[at + 1].x)) === column) return;\n\
pen.lineTo(x, y);\n\
y = this.pixelY(step.y);\n\
pen.lineTo(x, y);\n\
});\n\
if (column !== null) pen.lineTo(this.pixelX(this.all.x1), y);\n\
}\n\
drawSteps(steps, colour, thickness) {\n\
this.penOf(colour, thickness);\n\
this.outline(steps);\n\
this.pen.stroke();\n\
}\n\
drawAnswers() {\n\
const answers = this.marks.answers.filter((answer) => this.isInSight(answer));\n\
if (answers.length > MANY_ANSWERS) return;\n\
this.penOf('--acknowledged', 1.25);\n\
for (const { x, y } of answers) this.line(this.pixelX(x), this.pixelY(y) - 6, this.pixelX(x), this.pixelY(y) + 6);\n\
}\n\
drawDots() {\n\
const pen = this.penOf('--data', 1.25);\n\
const dots = this.marks.dots.filter((dot) => this.isInSight(dot));\n\
const radius = dots.length > MANY_DOTS ? 1.2 : dots.length > 400 ? 2.2 : 3.2;\n\
const drawn = new Set();\n\
for (const dot of dots) {\n\
const [x, y] = [this.pixelX(dot.x), this.pixelY(dot.y)];\n\
const key = (Math.round(x) * CHART_HEIGHT + Math.round(y)) * 2 + Number(dot.again);\n\
if (dots.length > MANY_DOTS && drawn.has(key)) continue;\n\
drawn.add(key);\n\
pen.beginPath();\n\
pen.arc(x, y, dot.again ? radius + 0.8 : radius, 0, 7);\n\
if (dot.again) pen.stroke();\n\
else pen.fill();\n\
}\n\
}\n\
drawAsked() {\n\
const pen = this.penOf('--ink', 1.25);\n\
const drawn = new Set();\n\
for (const mark of this.marks.asked.filter((mark) => this.isInSight(mark))) {\n\
const [x, y] = [Math.round(this.pixelX(mark.x)), Math.round(this.pixelY(mark.y))];\n\
if (drawn.has(x * CHART_HEIGHT + y)) continue;\n\
drawn.add(x * CHART_HEIGHT + y);\n\
pen.beginPath();\n\
pen.moveTo(x - 4, y - 12);\n\
pen.lineTo(x + 4, y - 12);\n\
pen.lineTo(x, y - 5);\n\
pen.closePath();\n\
pen.stroke();\n\
}\n\
}\n\
drawLost() {\n\
const lost = this.marks.lost.filter((mark) => this.isInSight(mark));\n\
const pen = this.penOf('--mark', 2.25);\n\
const arm = lost.length > 400 ? 3 : 4.5;\n\
const drawn = new Set();\n\
for (const mark of lost) {\n\
const [x, y] = [Math.round(this.pixelX(mark.x)), Math.round(this.pixelY(mark.y))];\n\
if (drawn.has(x * CHART_HEIGHT + y)) continue;\n\
drawn.add(x * CHART_HEIGHT + y);\n\
this.line(x - arm, y - arm, x + arm, y + arm);\n\
this.line(x - arm, y + arm, x + arm, y - arm);\n\
if (!mark.isSent) pen.strokeRect(x - arm - 2, y - arm - 2, 2 * arm + 4, 2 * arm + 4);\n\
}\n\
}\n\
drawArrived() {\n\
const pen = this.penOf('--acknowledged', 1);\n\
const columns = new Set(this.marks.arrived.filter((dot) => this.isInSight(dot)).map(({ x }) => Math.round(this.pixelX(x))));\n\
for (const x of columns) {\n\
pen.beginPath();\n\
pen.arc(x, CHART_HEIGHT - EDGES.bottom - 5, 2.2, 0, 7);\n\
pen.fill();\n\
}\n\
}\n\
drawMarks() {\n\
const { width } = this;\n\
const pen = this.penOf('--mark', 1.5);\n\
Object.assign(pen, { font: `bold 12px ${this.style.fontFamily}`, textBaseline: 'bottom' });\n\
pen.setLineDash([6, 4]);\n\
for (const { y, label } of this.marks.numbers) {\n\
this.line(EDGES.left, this.pixelY(y), width, this.pixelY(y));\n\
this.words(label, EDGES.left + 4, this.pixelY(y) - 3);\n\
}\n\
for (const { x, label } of this.marks.datagrams) {\n\
this.line(this.pixelX(x), EDGES.top - 6, this.pixelX(x), CHART_HEIGHT);\n\
const isRight = this.pixelX(x) > width / 2;\n\
pen.textAlign = isRight ? 'right' : 'left';\n\
this.words(label, this.pixelX(x) + (isRight ? -5 : 5), CHART_HEIGHT - EDGES.bottom - 4);\n\
}\n\
pen.setLineDash([]);\n\
}\n\
words(text, x, y) {\n\
const { pen } = this;\n\
pen.save();\n\
pen.setLineDash([]);\n\
Object.assign(pen, { strokeStyle: this.colour('--sheet'), lineWidth: 4, lineJoin: 'round' });\n\
pen.strokeText(text, x, y);\n\
pen.fillText(text, x, y);\n\
pen.restore();\n\
}\n\
}\n\
function legend({ dots, asked, lost, arrived }) {\n\
const hasWhole = dots.some(({ isWhole }) => isWhole);\n\
return make('ul', { class: 'legend' },\n\
legendItem(hasWhole ? 'DATA to this reader, or where a sample in fragments is complete' : 'DATA to this reader', drawn('circle', { class: 'sent', cx: 12, cy: 7, r: 4 })),\n\
legendItem(hasWhole ? 'sent again, or a fragment of it' : 'sent again', drawn('circle', { class: 'again', cx: 12, cy: 7, r: 4.5 })),\n\
asked.length > 0 && legendItem('asked for by the reader', drawn('path', { class: 'asked', d: 'M8 3h8l-4 7z' })),\n\
lost.length > 0 && legendItem('lost: missed, unsent, unanswered or not arrived', drawn('path', { class: 'cross', d: 'M8 3l8 8m0-8l-8 8' })),\n\
lost.some(({ isSent }) => !isSent) && legendItem('lost, and never sent here', drawn('path', { class: 'cross', d: 'M9 4l6 6m0-6l-6 6M6 1h12v12H6z' })),\n\
arrived.length > 0 && legendItem('received, or in the other recording', drawn('circle', { class: 'came', cx: 12, cy: 10, r: 2.5 })),\n\
legendItem('told gone', drawn('rect', { class: 'band', x: 2, y: 1, width: 20, height: 12 })),\n\
legendItem('announced by HEARTBEATs', drawn('path', { class: 'announced', d: 'M1 12H11V3H23' })),\n\
legendItem('acknowledged, a stroke for each answer',\n\
drawn('path', { class: 'acknowledged', d: 'M1 7H23' }), drawn('path', { class: 'answer', d: 'M8 1V13M17 1V13' })),\n\
legendItem('what the verdict is about', drawn('path', { class: 'verdict-line', d: 'M1 7H23' })));\n\
}\n\
</script>\n\
<script>'use strict';\n\
const MOST_PRINTED = 40;\n\
let chartInSight = null;\n\
let charts = [];\n\
function pairDetail(report, row) {\n\
return make('div', { class: 'detail-body' },\n\
make('div', { class: 'detail-words' },\n\
make('h3', null, `Pair ${row.at + 1}: `, shownTopic(row.topic)),\n\
make('dl', { class: 'ends-list' }, ...endParts(report, 'Writer', row.writer, row.writer_node), ...endParts(report, 'Reader', row.reader, row.reader_node)),\n\
make('p', { class: 'lead' }, verdictSentence(row)),\n\
...manyRanges(row),\n\
row.advice !== null && make('p', { class: 'advice' }, row.advice),\n\
make('h4', null, 'What it rests on'),\n\
make('ul', { class: 'rests-on' }, ...[...evidenceSentences(row), ...lateSentences(report.lateOf(row))].map((sentence) => make('li', null, sentence))),\n\
makeFold({ class: 'names' }, ['GUIDs and names of DDS'], () => [nameList(row)]),\n\
placeHelp(row)),\n\
make('div', { class: 'detail-chart' }, chartOf(report, row)));\n\
}\n\
function endParts(report, side, guid, node) {\n\
const [endpoint, participant] = [report.endpointOf.get(guid), report.participantOf(guid)];\n\
return [make('dt', null, side), make('dd', null, ...endpointName(report, guid, node),\n\
endpoint && make('span', { class: 'qos' }, `, ${endpoint.reliability}, ${endpoint.durability}`),\n\
participant && make('div', { class: 'qos' }, topicsText(participant)))];\n\
}\n\
function nameList({ topic, type, writer, reader }) {\n\
const name = (text) => make('code', { class: 'name' }, text);\n\
return make('dl', { class: 'ends-list' }, ...[['Topic', name(topic)], ['Type', name(type)], ['Writer', guidText(writer)], ['Reader', guidText(reader)]]\n\
.flatMap(([word, text]) => [make('dt', null, word), make('dd', null, text)]));\n\
}\n\
function manyRanges({ numbers }) {\n\
return Object.keys(LOST_WORDS).filter((kind) => numbers[kind]?.ranges.length > LOST_TOLD).map((kind) => {\n\
const { ranges, more } = numbers[kind];\n\
return makeFold({ class: 'ranges' }, [`All ranges of ${LOST_WORDS[kind].toLowerCase()} numbers`], () => [\n\
make('p', null, `${ranges.map(rangeText).join(', ')}${more > 0 ? `, and ${counted(more)} more ranges` : ''}.`)]);\n\
});\n\
}\n\
function placeHelp(row) {\n\
const place = row.claimed || row.acknowledged || row.announced;\n\
if (!place) return null;\n\
return make('p', { class: 'hint' }, `An octet is counted from 0 in the UDP payload. “rtps-audit show” prints datagram ${place.datagram}, and `\n\
+ `a line for each submessage in it with its octet, such as ${place.at}.`);\n\
}\n\
function chartOf(report, row) {\n\
chartInSight = report.basesOf(row) ? new Chart(report, row) : null;\n\
if (chartInSight) charts.push(chartInSight);\n\
if (chartInSight) return chartInSight.element;\n\
return make('p', { class: 'no-chart' }, 'The chart of this pair was left out: a page has room for 200,000 acts and answers, and other pairs '\n\
+ 'came first. A recording of fewer participants brings it: cut one by tshark, so that all traffic of some participants stays (the guide, '\n\
+ 'section 7, “Larger recordings”, says how).');\n\
}\n\
function forgetCharts() {\n\
[chartInSight, charts] = [null, []];\n\
}\n\
const redrawChart = () => charts.forEach((chart) => chart.draw());\n\
</script>\n\
<script>'use strict';\n\
const FIRST_ROWS = 100;\n\
const MORE_ROWS = 500;\n\
const byText = (member) => (a, b) => (a[member] < b[member] ? -1 : Number(a[member] > b[member]));\n\
const byCount = (numberOf) => (a, b) => compareNumbers(numberOf(a), numberOf(b));\n\
function placeColumn(name, head, member, meaning) {\n\
const numberOf = (row) => (row[name] ? row[name][member] : 0);\n\
return { name, head, meaning, class: 'count', compare: byCount(numberOf), cell: (report, row) => (row[name] ? String(numberOf(row)) : '–'), total: () => null };\n\
}\n\
function countColumn(name, meaning, isBad, numberOf) {\n\
const marked = (count, isMarked) => (isMarked && isAbove(count, 0) ? make('b', { class: 'bad' }, counted(count)) : counted(count));\n\
const cell = (report, row) => {\n\
const count = numberOf(row);\n\
return count === null ? '–' : marked(count, isBad(row));\n\
};\n\
const sum = ({ sums }) => sums[name];\n\
return {\n\
name, head: name[0].toUpperCase() + name.slice(1), meaning, class: 'count', compare: byCount((row) => numberOf(row) || 0), cell, isAmount: true, sum,\n\
total: (group) => marked(sum(group), isAbove(sum(group), 0) && group.rows.some(isBad)),\n\
};\n\
}\n\
const isLost = (name, row) => LOST.includes(name) || (name === 'likely' && isHeld(row));\n\
const OUTCOME_MEANINGS = {\n\
missed: 'the reader asked for the number, and nothing shows that it came',\n\
unsent: 'the reader acknowledged a number that the recording never sends to it',\n\
unanswered: 'the writer asked about it, and dropped it before the reader answered',\n\
likely: 'sent and acknowledged, but not so that it is certain',\n\
unconfirmed: 'sent, and not acknowledged by the end',\n\
received: 'for certain: it was sent before the answer that acknowledges it',\n\
arrived: 'the recording at the reader’s host has it',\n\
};\n\
const outcomeColumn = (name) => countColumn(name, OUTCOME_MEANINGS[name], (row) => isLost(name, row), ({ outcomes }) => outcomes[name]);\n\
const columnsOf = ({ data: { options } }) => [\n\
{ name: 'verdict', head: 'Topic and pairs', compare: (a, b) => worse(a, b) || compareNumbers(a.number, b.number), cell: verdictCell },\n\
{ name: 'writer', head: 'Writer', compare: byText('writer'), cell: (report, row) => endpointBriefly(report, row.writer, row.writer_node) },\n\
{ name: 'reader', head: 'Reader', compare: byText('reader'), cell: (report, row) => endpointBriefly(report, row.reader, row.reader_node) },\n\
...['missed', 'unsent', 'unanswered', 'likely', 'unconfirmed', 'received', 'arrived'].map(outcomeColumn),\n\
countColumn('before', 'numbers of before the reader joined', () => false, ({ from }) => differenceOf(from, options.from)),\n\
placeColumn('announced', 'Last announced', 'number', 'the last number that the writer announced'),\n\
placeColumn('acknowledged', 'Acknowledged below', 'below', 'the reader acknowledged all numbers below this one'),\n\
];\n\
function worseKey({ clean, lost, rank, isPlumbing }) {\n\
const rest = rank * 4 + Number(clean) * 2 + Number(isPlumbing);\n\
return typeof lost === 'number' && lost < 1e12 ? lost * 64 + rest : `${lost} ${rest}`;\n\
}\n\
const WORST_FIRST = { name: 'worst', head: 'Worst first', compare: worse, keyOf: worseKey };\n\
const BY_TOPIC = { name: 'topic', head: 'Topic', compare: (a, b) => byText('topic')(a, b) || worse(a, b) };\n\
const BY_TYPE = { name: 'type', head: 'Type', compare: (a, b) => byText('type')(a, b) || worse(a, b) };\n\
function verdictCell(report, row) {\n\
const bad = OUTCOMES.filter((name) => isLost(name, row) && isAbove(row.outcomes[name], 0));\n\
return make('a', { href: `#pair-${row.at + 1}`, 'aria-expanded': 'false' },\n\
make('span', { class: 'pair-name' }, `Pair ${row.at + 1} `), badge(row.verdict, row.verdict), ' ', make('span', { class: 'number' }, String(row.number)),\n\
row.datagram !== undefined && make('span', { class: 'in-datagram' }, ` in datagram ${row.datagram}`),\n\
bad.flatMap((name) => [' ', badge('missed', `${name} ${counted(row.outcomes[name])}`)]),\n\
row.clean && [' ', badge('clean', 'clean')]);\n\
}\n\
function alike(rows, keyOf) {\n\
const found = new Map();\n\
for (const row of rows) entryOf(found, keyOf(row), () => []).push(row);\n\
return found;\n\
}\n\
const [FOLDED, BAD, ALL] = ['folded', 'bad', 'all'];\n\
class Pairs {\n\
constructor(report) {\n\
Object.assign(this, { report, words: [], kinds: new Set(), order: WORST_FIRST, isDown: false, most: FIRST_ROWS, chosen: null, isPaper: false });\n\
this.columns = columnsOf(report).filter(({ name, isAmount, sum }) => (\n\
name === 'arrived' ? report.data.arrived : !isAmount || name === 'received' || report.groups.some((group) => isAbove(sum(group), 0))));\n\
this.orders = [WORST_FIRST, BY_TOPIC, BY_TYPE, ...this.columns];\n\
this.fold(null);\n\
this.sort();\n\
this.build();\n\
this.render();\n\
}\n\
sort() {\n\
const direction = this.isDown ? -1 : 1;\n\
const { rows } = this.report;\n\
const { compare, keyOf } = this.order;\n\
this.sorted = keyOf\n\
? [...alike(rows, keyOf).values()].sort(([a], [b]) => direction * compare(a, b)).flat()\n\
: [...rows].sort((a, b) => direction * compare(a, b) || a.at - b.at);\n\
}\n\
hasWord(word) {\n\
const has = (...texts) => texts.some((text) => typeof text === 'string' && text.toLowerCase().includes(word));\n\
const seen = new Map([[null, false], [undefined, false]]);\n\
const hasText = (text) => entryOf(seen, text, () => has(text));\n\
const isNumber = /^\\d+$/.test(word);\n\
const { groups, data } = this.report;\n\
const found = new Set(groups.filter(({ topic, type }) => has(topic, type, rosTopic(topic), rosType(type))));\n\
for (const { guid } of data.endpoints) {\n\
const participant = this.report.participantOf(guid);\n\
const { address, host, process, name } = participant.announced || {};\n\
if (has(guid, participant.name, ...participant.nodes, address, host, process, name)) found.add(guid);\n\
}\n\
return (row) => found.has(row.group) || found.has(row.writer) || found.has(row.reader) || hasText(row.verdict) || hasText(row.kind)\n\
|| hasText(row.writer_node) || hasText(row.reader_node) || (isNumber && String(row.number).includes(word));\n\
}\n\
matching() {\n\
const tests = this.words.map((word) => this.hasWord(word));\n\
if (this.kinds.size > 0) tests.push(({ kind }) => this.kinds.has(kind));\n\
return tests.reduce((rows, test) => rows.filter(test), this.sorted);\n\
}\n\
isAllOpen() {\n\
return this.isPaper || this.words.length > 0 || this.kinds.size > 0;\n\
}\n\
isShown({ clean, group: { openness } }) {\n\
return openness === ALL || (openness === BAD && !clean);\n\
}\n\
fold(openness) {\n\
const { groups } = this.report;\n\
for (const group of groups) group.openness = openness ?? (group.clean ? FOLDED : BAD);\n\
this.areCleanShown = openness === ALL || groups.every(({ clean }) => clean);\n\
}\n\
setFilter(text) {\n\
this.words = text.toLowerCase().split(/\\s+/).filter(Boolean);\n\
this.renderFirst();\n\
}\n\
setOrder(order) {\n\
this.isDown = order === this.order ? !this.isDown : order.class === 'count';\n\
this.order = order;\n\
this.sort();\n\
this.renderFirst();\n\
}\n\
toggleKind(kind) {\n\
if (!this.kinds.delete(kind)) this.kinds.add(kind);\n\
this.renderFirst();\n\
}\n\
build() {\n\
this.filter = make('input', { type: 'search', id: 'filter', autocomplete: 'off', spellcheck: 'false', placeholder: 'topic, node, host, verdict, GUID' });\n\
this.filter.addEventListener('input', () => this.setFilter(this.filter.value));\n\
this.select = make('select', { id: 'order' }, ...this.orders.map(({ name, head }) => make('option', { value: name }, head)));\n\
this.select.addEventListener('change', () => this.setOrder(this.orders.find(({ name }) => name === this.select.value)));\n\
this.status = make('p', { id: 'shown', role: 'status' });\n\
this.more = makeButton({ class: 'more' }, 'Show more', () => this.showMore());\n\
this.table = make('table', { class: 'pairs' }, make('caption', { class: 'hidden' }, 'Pairs by topic'), this.heads());\n\
this.table.addEventListener('click', (event) => this.clicked(event));\n\
const tools = make('div', { class: 'tools' },\n\
make('label', { for: 'filter' }, 'Filter'), this.filter,\n\
make('label', { for: 'order' }, 'Order'), this.select, makeButton(null, 'Reverse', () => this.setOrder(this.order)),\n\
makeButton({ class: 'open-all' }, 'Open all', () => this.openAll(ALL)), makeButton(null, 'Fold', () => this.openAll(null)));\n\
const wide = make('div', { class: 'wide' }, this.table);\n\
const words = this.explanation();\n\
document.getElementById('pairs').hidden = this.report.rows.length === 0;\n\
document.getElementById('pairs').append(this.kindButtons(), tools, this.status, wide, this.more, words);\n\
}\n\
heads() {\n\
return make('thead', null, make('tr', null, ...this.columns.map((column) => make('th',\n\
{ scope: 'col', class: `${column.name} ${column.class || ''}` }, makeButton(null, column.head, () => this.setOrder(column))))));\n\
}\n\
explanation() {\n\
const said = this.columns.filter(({ meaning }) => meaning).flatMap(({ head, meaning }, at) => [at > 0 && '; ', make('b', null, head), ` ${meaning}`]);\n\
return make('p', { class: 'hint words' }, ...said, '.');\n\
}\n\
kindButtons() {\n\
const countOf = (kind) => this.report.groups.reduce((sum, { kinds }) => sum + kinds[KINDS.indexOf(kind)], 0);\n\
this.buttons = KINDS.filter(countOf).map((kind) => makeButton({ class: `badge ${kind}`, 'aria-pressed': 'false' },\n\
`${counted(countOf(kind))} ${KIND_WORDS[kind]}`, (button) => {\n\
this.toggleKind(kind);\n\
button.setAttribute('aria-pressed', String(this.kinds.has(kind)));\n\
}));\n\
return make('div', { id: 'verdicts', role: 'group', 'aria-label': 'Show only pairs with these verdicts' }, ...this.buttons);\n\
}\n\
renderFirst() {\n\
this.most = FIRST_ROWS;\n\
this.render();\n\
}\n\
openAll(openness) {\n\
this.fold(openness);\n\
this.renderFirst();\n\
}\n\
openGroup(group, openness) {\n\
group.openness = openness;\n\
this.areCleanShown ||= group.clean;\n\
this.render();\n\
}\n\
showMore() {\n\
const first = this.table.querySelectorAll('tr.pair').length;\n\
this.most += MORE_ROWS;\n\
this.render();\n\
if (this.more.hidden) (this.table.querySelectorAll('tr.pair > th a')[first] || this.table.querySelector('tbody button'))?.focus();\n\
}\n\
showAll(isPaper) {\n\
if (isPaper === this.isPaper) return;\n\
[this.most, this.before] = isPaper ? [Infinity, this.most] : [this.before, null];\n\
this.isPaper = isPaper;\n\
this.render();\n\
}\n\
render() {\n\
const rows = this.matching();\n\
const { groups, shown, open } = this.choice(rows);\n\
this.table.querySelectorAll('tbody').forEach((body) => body.remove());\n\
const hasMore = this.showBodies(groups, shown) || shown.length < open;\n\
this.table.querySelectorAll('thead th').forEach((head, at) => {\n\
if (this.columns[at] === this.order) head.setAttribute('aria-sort', this.isDown ? 'descending' : 'ascending');\n\
else head.removeAttribute('aria-sort');\n\
});\n\
this.select.value = this.order.name;\n\
this.status.textContent = this.statusText(rows.length, open, shown.length);\n\
this.more.hidden = !hasMore;\n\
this.showChosen();\n\
}\n\
statusText(found, open, shown) {\n\
const all = this.report.rows.length;\n\
const folded = found - open;\n\
const some = shown < open ? `; the first ${counted(shown)} are shown` : '';\n\
return `${partOf(found, all, 'pair')}${some}${folded > 0 ? `; ${counted(folded)} ${folded === 1 ? 'is' : 'are'} folded` : ''}.`;\n\
}\n\
choice(rows) {\n\
const isAllOpen = this.isAllOpen();\n\
const [groups, shown] = [[], []];\n\
let open = 0;\n\
for (const group of this.report.groups) group.found = 0;\n\
for (const row of rows) {\n\
const { group } = row;\n\
if (group.found === 0) groups.push(group);\n\
group.found += 1;\n\
if (!isAllOpen && !this.isShown(row)) continue;\n\
open += 1;\n\
if (open <= this.most) shown.push(row);\n\
}\n\
return { groups, shown, open };\n\
}\n\
showBodies(groups, shown) {\n\
const isSeen = (group) => this.isAllOpen() || this.areCleanShown || !group.clean;\n\
const seen = groups.filter(isSeen).slice(0, this.most);\n\
const bodies = new Map(seen.map((group) => [group, make('tbody', null, this.groupRow(group))]));\n\
for (const row of shown) bodies.get(row.group)?.append(this.row(row));\n\
for (const [group, body] of bodies) this.addFolded(group, body);\n\
this.table.append(...bodies.values());\n\
this.addCleanTopics(groups.filter((group) => !isSeen(group)));\n\
return seen.length < groups.filter(isSeen).length;\n\
}\n\
addCleanTopics(groups) {\n\
if (groups.length === 0) return;\n\
const names = groups.slice(0, NAMED_TOPICS).map(({ topic }) => shownTopic(topic)).join(', ');\n\
const button = makeButton({ class: 'fold', 'aria-expanded': 'false' }, `${plural(groups.length, 'clean topic')}`, () => {\n\
this.areCleanShown = true;\n\
this.render();\n\
this.table.querySelector(`#topic-${groups[0].at + 1} button`)?.focus();\n\
});\n\
this.table.append(make('tbody', { class: 'clean-topics' }, make('tr', null, make('td', { colspan: this.columns.length }, button,\n\
make('span', { class: 'size' }, `${names}${groups.length > NAMED_TOPICS ? ` and ${groups.length - NAMED_TOPICS} more` : ''}`)))));\n\
}\n\
groupRow(group) {\n\
const { at, topic, type, rows, bad, found, openness } = group;\n\
const isOpen = this.isAllOpen() || openness !== FOLDED;\n\
const fold = makeButton({ class: 'fold', 'aria-expanded': String(isOpen) }, shownTopic(topic), () => {\n\
this.openGroup(group, isOpen ? FOLDED : group.clean ? ALL : BAD);\n\
document.querySelector(`#topic-${at + 1} button`)?.focus();\n\
});\n\
const clean = bad === rows.length ? 'none clean' : bad === 0 ? 'clean' : `${counted(rows.length - bad)} clean`;\n\
const head = make('th', { scope: 'rowgroup', colspan: 3 }, fold, make('span', { class: 'type' }, oneName('span', rosType(type) || type)),\n\
make('span', { class: 'size' }, `${partOf(found, rows.length, 'pair')}, ${clean}`));\n\
return make('tr', { class: 'group', id: `topic-${at + 1}` }, head,\n\
...this.columns.slice(3).map((column) => make('td', { class: `sum ${column.name}` }, column.total(group))));\n\
}\n\
addFolded(group, body) {\n\
const count = group.rows.length - group.bad;\n\
if (this.isAllOpen() || group.openness !== BAD || count === 0) return;\n\
body.append(make('tr', { class: 'folded' }, make('td', { colspan: this.columns.length },\n\
makeButton({ class: 'fold', 'aria-expanded': 'false' }, `${plural(count, 'clean pair')}`, () => {\n\
this.openGroup(group, ALL);\n\
document.querySelector(`#topic-${group.at + 1} button`)?.focus();\n\
}))));\n\
}\n\
row(row) {\n\
const cells = this.columns.map((column, at) => make(at === 0 ? 'th' : 'td',\n\
{ class: `${column.name} ${column.class || ''}`, ...(at === 0 ? { scope: 'row' } : {}) }, column.cell(this.report, row)));\n\
return make('tr', { id: `pair-${row.at + 1}`, class: `pair ${row.kind}` }, ...cells);\n\
}\n\
clicked(event) {\n\
const line = event.target.closest('tr.pair');\n\
const link = event.target.closest('a, button');\n\
if (!line || (link && !link.closest('th')) || event.ctrlKey || event.metaKey || event.shiftKey || String(getSelection())) return;\n\
event.preventDefault();\n\
const at = Number(line.id.slice('pair-'.length)) - 1;\n\
this.chosen = at === this.chosen ? null : at;\n\
this.showChosen();\n\
history.replaceState(null, '', this.chosen === null ? '#' : `#${line.id}`);\n\
}\n\
goTo(at) {\n\
if (at === this.chosen || !this.report.rows[at]) return;\n\
const row = this.report.rows[at];\n\
this.chosen = at;\n\
const isThere = () => document.getElementById(`pair-${at + 1}`) !== null;\n\
if (!isThere() && !this.isAllOpen()) this.openGroup(row.group, row.clean || row.group.openness === ALL ? ALL : BAD);\n\
if (!isThere()) this.filterBy(`${row.writer} ${row.reader}`);\n\
else this.showChosen();\n\
const line = document.getElementById(`pair-${at + 1}`);\n\
line.scrollIntoView();\n\
line.querySelector('a').focus({ preventScroll: true });\n\
}\n\
goToTopic(at) {\n\
const group = this.report.groups[at];\n\
if (!group) return;\n\
const lineOf = () => document.getElementById(`topic-${at + 1}`);\n\
if (group.openness === FOLDED || !lineOf()) this.openGroup(group, group.clean ? ALL : BAD);\n\
if (!lineOf()) this.filterBy(group.topic);\n\
lineOf().scrollIntoView();\n\
lineOf().querySelector('button').focus({ preventScroll: true });\n\
}\n\
filterBy(words) {\n\
this.filter.value = words;\n\
this.kinds.clear();\n\
this.buttons.forEach((button) => button.setAttribute('aria-pressed', 'false'));\n\
this.setFilter(words);\n\
}\n\
showChosen() {\n\
this.table.querySelectorAll('tr.detail').forEach((row) => row.remove());\n\
this.table.querySelectorAll('tr.chosen').forEach((row) => {\n\
row.classList.remove('chosen');\n\
row.querySelector('th a').setAttribute('aria-expanded', 'false');\n\
});\n\
forgetCharts();\n\
const bad = this.isPaper ? this.report.rows.filter(({ clean, at }) => !clean && at !== this.chosen).slice(0, MOST_PRINTED) : [];\n\
for (const { at } of bad) this.showDetail(at);\n\
if (this.chosen !== null) this.showDetail(this.chosen);\n\
redrawChart();\n\
}\n\
showDetail(at) {\n\
const line = document.getElementById(`pair-${at + 1}`);\n\
if (!line) return;\n\
line.classList.add('chosen');\n\
line.querySelector('th a').setAttribute('aria-expanded', 'true');\n\
line.after(make('tr', { class: 'detail' },\n\
make('td', { colspan: this.columns.length }, pairDetail(this.report, this.report.rows[at]))));\n\
}\n\
}\n\
</script>\n\
<script>'use strict';\n\
const PARTICIPANT_LINES = [20, 200];\n\
class Participants {\n\
constructor(report) {\n\
const section = document.getElementById('participants');\n\
this.list = [...report.participants.values()];\n\
this.showAtLeast = () => {};\n\
const { length } = this.list;\n\
section.append(make('p', { class: 'hint' }, length === 0\n\
? 'None is announced.'\n\
: `${plural(length, 'participant')}, mostly one process each, with ${plural(report.data.endpoints.length, 'endpoint')}. Each opens to its endpoints.`));\n\
if (length === 0) return;\n\
const place = make('div', { class: 'participants' });\n\
section.append(place);\n\
const pairsOf = memo(() => pairsByEnd(report));\n\
this.showAtLeast = inParts(section, 'participant', this.list, PARTICIPANT_LINES, (some) => {\n\
const folds = some.map((participant) => participantFold(report, participant, pairsOf));\n\
place.append(...folds);\n\
return folds.map((fold) => fold.querySelector('summary'));\n\
});\n\
}\n\
goTo(at) {\n\
if (at > this.list.length) return;\n\
this.showAtLeast(at);\n\
const fold = document.getElementById(`participant-${at}`);\n\
openFold(fold);\n\
fold.scrollIntoView();\n\
fold.querySelector('summary').focus({ preventScroll: true });\n\
}\n\
}\n\
function pairsByEnd({ rows }) {\n\
const pairsOf = new Map();\n\
for (const row of rows) for (const guid of [row.writer, row.reader]) entryOf(pairsOf, guid, () => []).push(row);\n\
return pairsOf;\n\
}\n\
function participantFold(report, participant, pairsOf) {\n\
return makeFold({ class: 'participant', id: `participant-${participant.at}` }, participantLine(participant), () => participantBody(report, participant, pairsOf()));\n\
}\n\
function participantLine(participant) {\n\
const { name, nodes, announced, endpoints } = participant;\n\
const [title, where] = [titleOf(participant), whereOf(participant)];\n\
return [make('b', { class: 'name' }, name), title && make('span', { class: 'node' }, nodes.length > 1 ? nodesText({ nodes }, NAMED_NODES) : title),\n\
make('span', { class: 'host' }, where || (announced === null ? 'its own announcement is not in the recording' : 'no address')),\n\
make('span', { class: 'life' }, [plural(endpoints.length, 'endpoint'), ...lifeText(announced)].join(', '))];\n\
}\n\
function lifeText(announced) {\n\
if (announced === null || announced.first === null) return [];\n\
const { first, last, left, silent, first_time: from = null, last_time: to = null } = announced;\n\
const moment = (datagram, time) => (time === null ? `datagram ${datagram}` : `${time.toFixed(3)} s`);\n\
return [`${moment(first, from)} to ${moment(last, to)}`, ...(left !== null ? ['left'] : []), ...(silent ? ['silent since'] : [])];\n\
}\n\
function participantBody(report, participant, pairsOf) {\n\
const { prefix, announced, endpoints } = participant;\n\
const ordered = [...endpoints].sort((a, b) => byText('side')(b, a) || byText('topic')(a, b));\n\
const lines = ordered.map((endpoint) => endpointRow(report, endpoint, pairsOf.get(endpoint.guid) || []));\n\
const { name = null, enclave = null, domain = null } = announced || {};\n\
const words = [name !== null && `name ${name}`, enclave !== null && `enclave ${enclave}`, domain !== null && `domain ${domain}`].filter(Boolean).join(', ');\n\
return [make('p', { class: 'hint' }, 'GUID prefix ', make('code', { class: 'guid' }, prefix), words && `, ${words}`),\n\
endpoints.length === 0 ? make('p', null, 'It announced no endpoint.') : make('div', { class: 'wide' }, make('table', { class: 'endpoints' },\n\
make('caption', { class: 'hidden' }, `Endpoints of ${participant.name}`), tableHead('Endpoint', 'Topic', 'QoS', 'Pairs of this report'), make('tbody', null, ...lines)))];\n\
}\n\
function endpointRow(report, endpoint, rows) {\n\
const links = rows.slice(0, NAMED_PAIRS).flatMap((row, at) => [at > 0 && ', ', pairLink(report, row)]);\n\
const pairs = rows.length === 0 ? 'in no pair' : [...links, rows.length > NAMED_PAIRS && ` and ${counted(rows.length - NAMED_PAIRS)} more`];\n\
return make('tr', rows.length > 0 ? null : { class: 'unpaired' },\n\
make('th', { scope: 'row' }, endpoint.side, ' ', make('code', { class: 'guid' }, endpoint.guid.slice(25))),\n\
make('td', null, make('div', null, ...topicName(endpoint.topic)), make('div', { class: 'type' }, ...typeName(endpoint.type))),\n\
make('td', null, `${endpoint.reliability}, ${endpoint.durability}`),\n\
make('td', { class: 'in-pairs' }, pairs));\n\
}\n\
</script>\n\
<script>'use strict';\n\
function start() {\n\
const report = reportOf(document.getElementById('data').textContent);\n\
showHead(report);\n\
document.querySelector('main').hidden = false;\n\
const picture = new Picture(report, document.getElementById('picture'));\n\
showHappened(report, document.getElementById('happened'));\n\
showTalk(report);\n\
showBestEffort(report);\n\
showNotes(report);\n\
showCounts(report);\n\
const pairs = new Pairs(report);\n\
const participants = new Participants(report);\n\
showBar();\n\
const go = () => goToAddress(pairs, participants);\n\
window.addEventListener('hashchange', go);\n\
document.addEventListener('click', ({ target }) => target.closest('a')?.hash === location.hash && location.hash !== '' && go());\n\
go();\n\
listenForPaper(pairs, picture);\n\
}\n\
function showBar() {\n\
const sections = [...document.querySelectorAll('main > section')].filter((section) => !section.hidden);\n\
fill(document.getElementById('bar'), ...sections.map((section) => make('a', { href: `#${section.id}` }, section.dataset.name || section.querySelector('h2').textContent)));\n\
}\n\
function goToAddress(pairs, participants) {\n\
const [, what, at] = /^#(pair|topic|participant)-(\\d+)$/.exec(location.hash) || [];\n\
if (what === 'pair') pairs.goTo(Number(at) - 1);\n\
if (what === 'topic') pairs.goToTopic(Number(at) - 1);\n\
if (what === 'participant') participants.goTo(Number(at));\n\
}\n\
function listenForPaper(pairs, picture) {\n\
matchMedia('(prefers-color-scheme: dark)').addEventListener('change', redrawChart);\n\
const onPaper = (isOnPaper) => () => {\n\
document.documentElement.classList.toggle('printed', isOnPaper);\n\
pairs.showAll(isOnPaper);\n\
picture.draw();\n\
redrawChart();\n\
};\n\
window.addEventListener('beforeprint', onPaper(true));\n\
window.addEventListener('afterprint', onPaper(false));\n\
}\n\
try {\n\
start();\n\
} catch (error) {\n\
document.documentElement.classList.remove('scripted');\n\
document.getElementById('page').hidden = true;\n\
document.getElementById('text').prepend(make('p', null, `The tables of this report cannot be shown here: ${error}`));\n\
throw error;\n\
}\n\
</script>\n\
</body>\n\
</html>\n\
";
