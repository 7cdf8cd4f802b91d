//! How a page looks, by day and by night.

ghost use Rattle.std.specs.Prelude.{◌≡◌, ◌++◌, option_map, OnOk};
ghost use Rattle.picture_html.specs.Style as spec;

use picture_text::Detail;
use std::alloc::AllocError;

/// The style sheet: colours by day and by night, and which element has which.
const STYLE: &[u8] = b"<style>
:root{color-scheme:light dark;--bg:#fff;--ink:#0f172a;--dim:#64748b;--edge:#e2e8f0;
--grid:#eef2f7;--over:#f1f5f9;--act:#10b981;--on:#fff;--bar:78% 86%;--method:#4f46e5;
--ok:#047857;--ok-bg:#d1fae5;--bad:#b91c1c;--bad-bg:#fee2e2;--mono:ui-monospace,SFMono-Regular,
Menlo,Consolas,\"DejaVu Sans Mono\",\"Liberation Mono\",monospace}
@media (prefers-color-scheme:dark){:root{--bg:#0b1120;--ink:#e2e8f0;--dim:#94a3b8;--edge:#1e293b;
--grid:#172036;--over:#16203a;--act:#34d399;--on:#06281f;--bar:40% 42%;--method:#a5b4fc;
--ok:#6ee7b7;--ok-bg:#064e3b;--bad:#f87171;--bad-bg:#2c1518}}
*{box-sizing:border-box}body{margin:0;background:var(--bg);color:var(--ink)}
body{font:14px/1.45 system-ui,sans-serif}main{max-width:1240px;margin:0 auto;padding:28px 24px 60px}
header{margin:0 0 20px}header p{margin:6px 0 0;color:var(--dim)}h2{margin:34px 0 10px;font-size:15px}
h1{display:inline;margin:0 12px 0 0;font-size:22px;overflow-wrap:anywhere}
.verdict{padding:3px 11px;border-radius:12px;font-weight:600;color:var(--ok);background:var(--ok-bg)}
.verdict.no{color:var(--bad);background:var(--bad-bg)}.chart{max-width:calc(480px + var(--n)*56px)}
.chart,.tree{border:1px solid var(--edge);border-radius:10px}.tree svg{display:block;border-radius:10px}
.tree{overflow:auto;width:fit-content;max-width:100%}
.why{margin:0;padding:12px 16px;overflow:auto;border-left:4px solid var(--edge);border-radius:0 10px 10px 0}
.why{font:12.5px/1.5 var(--mono);color:var(--dim)}
.why.no{border-color:var(--bad);color:var(--ink);background:var(--bad-bg)}
.why.no::first-line{font-weight:600;color:var(--bad)}
.run{overflow:auto;border:1px solid var(--edge);border-radius:10px}
table{width:100%;border-collapse:collapse;font:12.5px/1.45 var(--mono)}
th,td{padding:5px 12px;text-align:left;vertical-align:top;border-top:1px solid var(--grid)}
th{border:0;color:var(--dim);font-weight:400}th+th+th{width:36%}td span,td+td:not([class]){white-space:nowrap}
td:first-child{width:1%;text-align:right;font-weight:700}td:first-child,.add{color:var(--ok)}
.del{color:var(--bad)}
.key{display:flex;flex-wrap:wrap;gap:2px 18px;color:var(--dim);font-size:12.5px}
.key i{display:inline-block;width:18px;height:10px;margin-right:6px;border-radius:3px}
.key i{background:hsl(230 var(--bar))}.key .a{background:var(--act)}
.row{display:grid;grid-template-columns:min(460px,75%) minmax(0,1fr);border-top:1px solid var(--grid)}
.row:hover,.row:target{background:var(--over)}summary{list-style:none;cursor:pointer}
summary::-webkit-details-marker{display:none}.head:hover{background:var(--bg)}
.head{position:sticky;top:0;z-index:2;border:0;border-radius:10px;color:var(--dim);background:var(--bg)}
.label{--in:min(var(--d,0)*18px,50%);display:flex;align-items:baseline;gap:8px;min-width:0;
padding:4px 10px 4px calc(12px + var(--in));overflow-wrap:anywhere;font-size:12.5px;
font-family:var(--mono);
background:repeating-linear-gradient(to right,transparent 0 17px,var(--edge) 17px 18px) no-repeat;
background-size:var(--in) 100%}.label small{color:var(--dim)}em{font-style:normal;color:var(--method)}
mark{padding:0 6px;border-radius:8px;font-weight:600;background:var(--bad-bg)}
mark,.bad em,.bad .label b{color:var(--bad)}
.label>b{flex:none;min-width:14px}.label .sign{color:var(--dim);font-size:9px}
.sign:before{content:\"\\25cb\"}summary .sign:before{content:\"\\25b6\"}
details[open]>summary .sign:before{content:\"\\25bc\"}
.label .no{min-width:22px;padding:0 5px;border-radius:9px;text-align:center;font-size:11px}
.label .no{color:var(--on);background:var(--ok)}.bad .label .no{color:var(--bg);background:var(--bad)}
.time{position:relative;margin-right:14px;border-left:1px solid var(--edge);
background:linear-gradient(to right,var(--grid) 1px,transparent 1px);
background-size:calc(100%*var(--s)/var(--n)) 100%}.time u{text-decoration:none;font-size:11px}
.time u,.time i{position:absolute;left:calc(100%*var(--a)/var(--n))}.time u{top:7px}
.time u{margin-left:calc(50%/var(--n));transform:translateX(-50%)}.head .time{background:none}
.time i{width:calc(100%*(var(--b) - var(--a) + 1)/var(--n));min-width:2px;top:0;bottom:0}
.time i{height:12px;margin:auto 0}.act .time i{height:16px;background:var(--act)}
.time i{border-radius:4px;background:hsl(calc(230 + var(--d,0)*12) var(--bar))}.time .link{height:2px}
.bad .time i{background:var(--bad)}.time:has(u:nth-child(24)) u:nth-child(2n){display:none}
@media(max-width:1150px){.time:has(u:nth-child(11)) u:not(:nth-child(5n+1)){display:none}}
@media(max-width:700px){.time:has(u:nth-child(11)) u:not(:nth-child(10n+1)){display:none}}
@media print{.head{position:static}.why{white-space:pre-wrap}.why,.tree,.run{overflow:visible}
.tree svg{max-width:100%;height:auto}.row,tr{break-inside:avoid}
td,td span,td+td:not([class]){white-space:normal}.why,td{overflow-wrap:anywhere}
.row *,.key i{-webkit-print-color-adjust:exact;print-color-adjust:exact}}
</style>
";

/// What a solution says of lines, and the signs of tests.
const DETAILS_STYLE: &[u8] = b"<style>
.row:not(.head){position:relative}.tip{display:none;position:absolute;z-index:3;margin-left:12px}
.tip{left:min(460px,75%);top:calc(100% - 2px);padding:8px 12px;border-radius:8px;pointer-events:none}
.tip{width:max-content;max-width:calc(100vw - 560px);overflow-wrap:anywhere}
.tip{background:var(--ink);color:var(--bg);font:12px/1.5 var(--mono);white-space:pre-wrap}
.row:hover>.tip:not(:empty),.row:focus-visible>.tip:not(:empty){display:block}
.time .p,.key .p{width:9px;height:9px;min-width:0;border:2px solid var(--method);border-radius:0}
.time .p,.key .p{background:var(--bg);transform:rotate(45deg)}
.time .p{margin:auto 0 auto -5px}@media print{.tip{display:none!important}}
@media(max-width:800px){.tip{left:0;max-width:calc(100vw - 84px)}}
</style>
";

/// How the page looks.
pub(crate) fn say_style(out: &mut Vec<u8>) -> Result<(), AllocError>
    ensures { OnOk result (out.new.items ≡ out.old.items ++ spec.style) }
{
    out.extend_from_slice(STYLE)?;
    Ok(())
}

/// How what a solution says of lines looks, if anything is said.
pub(crate) fn say_more_style(
    out: &mut Vec<u8>,
    details: Option<&[Detail]>,
) -> Result<(), AllocError>
    ensures { OnOk result (out.new.items ≡ out.old.items ++ spec.more_style (option_map (λ d. d.now) details.entry)) }
{
    match details {
        Some(_) => out.extend_from_slice(DETAILS_STYLE),
        None => Ok(()),
    }
}
