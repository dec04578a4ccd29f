//! How a page begins: made by bin/page-text.

/// From its first byte to the drawing.
pub(crate) static HEAD: &str = r#"<!doctype html>
<html lang="en">
<head>
<meta charset="utf-8">
<meta http-equiv="Content-Security-Policy" content="default-src 'none';
style-src 'sha256-BSglJXkIMJMBBcTgP22keWDMirynTDfZhgvIWKDSZPE='
'sha256-R995+T66JVyD3ZQLtEA64yNUu9LEwtsbLJpyy6lIygk=';
script-src 'sha256-6UNgASODMtRoh34gNzxj0qVdym4TPYTxNpEa0N+4VUU=';
base-uri 'none'; form-action 'none'">
<meta name="referrer" content="no-referrer">
<meta name="viewport" content="width=device-width, initial-scale=1">
<title>The run of a script</title>
<style>:root{color-scheme:light;--paper:#fff;--ink:#222;--soft:#5d6772;--rule:#dde2e8;--even:#f4f6f9;
--odd:#e9edf2;--faint:#bbb;--blue:#33598f;--two:#f2b134;--asy:#4aa8b3;--good:#2e7d32;--bad:#b00020;
--now:#eaf0fa;--link:#6b3fa0;--new:#fff6d9}
@media screen and (prefers-color-scheme:dark){:root{color-scheme:dark;--paper:#15181c;--ink:#e3e6ea;
--soft:#98a2ad;--rule:#30363e;--even:#1b2026;--odd:#222931;--faint:#59626c;--blue:#8db3ea;
--two:#d49a2c;--asy:#3f98a3;--good:#74c27a;--bad:#ff7b86;--now:#22304a;--link:#c5a3f0;--new:#37311b}}
*{box-sizing:border-box}
[hidden]{display:none!important}
body{margin:0;background:var(--paper);color:var(--ink);
font:14px/1.45 "DejaVu Sans",Helvetica,Arial,sans-serif}
header{position:sticky;top:0;z-index:5;display:flex;flex-wrap:wrap;gap:6px 20px;align-items:center;
padding:8px 16px;background:var(--paper);border-bottom:1px solid var(--rule)}
h1{font-size:15px;margin:0}
#moves{display:flex;flex:1 1 460px;gap:6px;align-items:center;min-width:0}
#slide{flex:1;min-width:80px;accent-color:var(--blue)}
#place{white-space:nowrap;min-width:8em;text-align:right}
button{font:inherit;color:inherit;background:var(--even);border:1px solid var(--rule);
border-radius:5px;padding:3px 10px;min-height:30px;cursor:pointer}
button:hover:not(:disabled){background:var(--odd)}
button:disabled{opacity:.4;cursor:default}
:focus-visible{outline:2px solid var(--blue);outline-offset:2px}
label{white-space:nowrap;cursor:pointer}
#run{min-width:0}
#drawing{overflow:auto;position:relative}
#lines{overflow:auto;padding:8px 16px}
.moves main{display:grid;grid-template-columns:minmax(0,1fr) clamp(380px,38vw,620px)}
.moves #run{border-right:1px solid var(--rule);position:sticky;top:48px;height:calc(100vh - 48px);
display:flex;flex-direction:column}
.moves #drawing,.moves #lines{flex:1;min-height:0;cursor:pointer}
#moment{padding:12px 18px 30px;min-width:0}
#moment section{margin:0 0 16px}
#moment p{margin:4px 0}
h2{font-size:11px;letter-spacing:.08em;text-transform:uppercase;color:var(--soft);margin:0 0 5px}
#said{background:var(--now);border-left:4px solid var(--blue);border-radius:0 6px 6px 0;
padding:10px 14px;min-height:7em}
#said.no{border-left-color:var(--bad)}
#said.yes{border-left-color:var(--good)}
#said .what{font-size:15px;font-weight:bold}
a{white-space:nowrap;color:var(--link)}
.yes{color:var(--good)}
.no,tr.no td:nth-child(4){color:var(--bad)}
#said.no,#said.yes{color:inherit}
.soft{color:var(--soft)}
bdi,td{overflow-wrap:anywhere}
table{border-collapse:collapse;width:100%;font-size:13px}
caption{text-align:left;color:var(--soft);font-size:12px;padding-bottom:6px}
th,td{text-align:left;vertical-align:top;padding:3px 8px 3px 0;border-bottom:1px solid var(--rule);
font-weight:normal}
thead th{color:var(--soft);font-size:11px}
#lines tbody th{color:var(--soft);text-align:right}
#lines td:nth-child(n+3){min-width:8em}
#lines tr{scroll-margin:90px}
#lines tr.at>*,#lines tr:target>*{background:var(--now)}
tr.new>*{background:var(--new)}
.who{font-weight:bold}
.bar{display:inline-block;border-left:7px solid var(--two);padding-left:6px}
.bar.asy{border-color:var(--asy)}
.mark{display:inline-block;margin-right:12px}
.mark::before,i.com,i.rol{content:"";display:inline-block;width:8px;height:8px;
transform:rotate(45deg);background:var(--good);margin-right:6px}
.mark.rol::before,i.rol{background:var(--bad)}
#open li{border:1px solid var(--rule);border-radius:6px;padding:5px 10px;margin:0 0 6px}
#open li.act{border-color:var(--blue);box-shadow:inset 3px 0 0 var(--blue)}
#open ul{list-style:none;margin:0;padding:0}
.due{float:right;color:var(--blue);margin-left:10px}
footer{padding:10px 16px;color:var(--soft);font-size:12px;border-top:1px solid var(--rule)}
footer p{margin:0 0 4px;max-width:110ch}
footer i{display:inline-block;width:8px;height:12px;vertical-align:-2px;margin:0 2px}
i.two{background:var(--two)}
i.asy{background:var(--asy)}
i.com,i.rol{height:8px;vertical-align:0}
i.rea{border:1px solid var(--blue);border-radius:50%;height:8px;vertical-align:0}
kbd,code{font-family:"DejaVu Sans Mono",monospace;background:var(--even);padding:0 3px}
svg{display:block}
svg>rect:first-of-type{fill:var(--paper)}
svg text{fill:var(--ink)}
svg .number,svg .region{fill:var(--soft)}
svg .seen,svg .sign{fill:var(--ink)}
svg .refused,svg .reason{fill:var(--bad)}
svg .back{fill:var(--paper)}
svg .even{fill:var(--even)}
svg .odd{fill:var(--odd)}
svg .life,svg .line{stroke:var(--faint)}
svg .ends{stroke:var(--ink)}
svg .dot{fill:var(--ink)}
svg .sent,svg .waits{stroke:var(--blue)}
svg .held,svg .read{stroke:var(--blue);fill:var(--paper)}
svg .cross{stroke:var(--bad)}
svg .two-phase{fill:var(--two)}
svg .async{fill:var(--asy)}
svg .commit{fill:var(--good)}
svg .rollback{fill:var(--bad)}
svg .band{fill:var(--blue);opacity:.13}
svg .veil{fill:var(--paper);opacity:.55}
.guess svg .veil{opacity:1}
.guess tr.later td:nth-child(n+4){visibility:hidden}
.later{opacity:.6}
#heads{position:sticky;top:0;z-index:2;background:var(--paper);border-bottom:1px solid var(--rule)}
@media (min-width:1600px){body{font-size:15px}
.moves main{grid-template-columns:minmax(0,1.1fr) minmax(760px,1fr)}
#moment{display:grid;grid-template-columns:1fr 1fr;gap:0 28px;align-content:start}
#said,#store{grid-column:1/3}}
@media (max-width:860px){.moves main{display:block}header{padding:6px 10px}
#moves{flex-basis:100%;flex-wrap:wrap}#slide{flex-basis:100%;order:-1}button{min-height:38px}
.moves main{display:flex;flex-direction:column}#moment{padding:10px 12px}
.moves #run{position:static;height:auto;order:2;border:0;border-top:1px solid var(--rule)}
.moves #drawing,.moves #lines{max-height:70vh}}
@media print{header{position:static}#moves,#help,#heads,svg .veil,svg .band{display:none!important}
.moves main{display:block}.moves #run{position:static;height:auto;display:block;border:0}
#drawing,#lines{display:block!important;overflow:visible!important;max-height:none!important}
#drawing svg{width:100%;height:auto}tr,#moment section{break-inside:avoid}.later{opacity:1}
.guess tr.later td{visibility:visible!important}*{print-color-adjust:exact}}
@media (prefers-contrast:more){body:not(.guess) svg .veil{opacity:.2}.later{opacity:1}}
</style>
</head>
<body>
<header>
<h1>The run of a script</h1>
<div id="moves" hidden>
<button type="button" id="first" aria-label="to the beginning">&#x21E4;</button>
<button type="button" id="back" aria-label="one line back">&#x2190;</button>
<input type="range" id="slide" min="0" value="0" aria-label="line of the script">
<button type="button" id="next" aria-label="one line on">&#x2192;</button>
<button type="button" id="last" aria-label="to the end">&#x21E5;</button>
<output id="place"></output>
<label title="what comes is hidden: say it before you see it (p)"><input type="checkbox" id="guess"> predict</label>
<button type="button" id="turn">lines</button>
</div>
</header>
<main>
<section id="run" aria-label="The run">
<div id="drawing" tabindex="-1" role="img" aria-label="The run, drawn: time goes down, a column a session and a key">
"#;
