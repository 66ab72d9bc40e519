//! The head of a page.

/// What stands before all that a page says: that it is HTML in UTF-8, that a browser may run nothing in it and fetch nothing for it
/// (Content Security Policy, level 3), and how it looks, in light and in dark, on a screen and on a telephone. Each status has a word, and
/// a sign beside its colour. Colours contrast with what is behind them by 4.5 at least (WCAG 2.2, 1.4.3).
pub const HEAD: &str = r#"<!DOCTYPE html>
<html lang="en">
<meta charset="utf-8">
<meta name="viewport" content="width=device-width,initial-scale=1">
<meta http-equiv="Content-Security-Policy" content="default-src 'none'; style-src 'unsafe-inline'">
<style>
:root{color-scheme:light dark;--ink:#1b1f24;--soft:#57606a;--paper:#fff;--box:#f6f8fa;--line:#8c959f;--good:#116329;--bad:#a40e26;
 --late:#7a4100;--off:#57606a;--many:#0550ae;--data:#fff}
@media (prefers-color-scheme:dark){:root{--ink:#e6edf3;--soft:#9aa4af;--paper:#0d1117;--box:#161b22;--line:#6e7681;--good:#56d364;
 --bad:#ff7b72;--late:#e3b341;--off:#9aa4af;--many:#79c0ff;--data:#0d1117}}
*{box-sizing:border-box}
body{margin:0 auto;padding:1rem;max-width:100rem;background:var(--paper);color:var(--ink);font:16px/1.4 system-ui,sans-serif}
h1{margin:0;font-size:1.4rem;overflow-wrap:anywhere}
h2{margin:0;font-size:1rem;overflow-wrap:anywhere}
p,dl,dd,pre{margin:0}
p{margin-top:.25rem}
header{border-bottom:2px solid var(--line);padding-bottom:1rem;margin-bottom:1rem}
dt{margin-top:.5rem;color:var(--soft);font-size:.875rem}
pre{padding:.4rem;border:1px solid var(--line);border-radius:.25rem;background:var(--data);font:13px/1.4 ui-monospace,monospace;
 white-space:pre-wrap;overflow-wrap:anywhere;max-height:20rem;overflow:auto}
code{font:13px ui-monospace,monospace;overflow-wrap:anywhere}
summary{cursor:pointer}
.level{display:flex;flex-wrap:wrap;justify-content:center;align-items:flex-start;gap:.75rem}
.level+.level::before{content:"\2193";flex:0 0 100%;text-align:center;color:var(--soft);line-height:1.6}
.action{min-width:0;max-width:100%;padding:.5rem .6rem;border:1px solid var(--line);border-left:.4rem solid var(--look);
 border-radius:.3rem;background:var(--box)}
.action:not(:has(.branches)){width:19rem}
.place:empty{display:none}
.kind,.after,.case,.place{color:var(--soft);font-size:.875rem}
.after i{font-style:normal;border:1px dashed var(--line);border-radius:.25rem;padding:0 .25rem;color:var(--ink)}
.mark{font-weight:600;color:var(--look);white-space:nowrap}
.mark::before{content:var(--sign);margin-right:.3rem}
.succeeded{--look:var(--good);--sign:"\2714"}
.failed{--look:var(--bad);--sign:"\2718"}
.skipped{--look:var(--off);--sign:"\2013"}
.timed-out{--look:var(--late);--sign:"\29D6"}
.cancelled{--look:var(--late);--sign:"\2298"}
.several{--look:var(--many);--sign:"\2261"}
.absent{--look:var(--off);--sign:"\25CB"}
.skipped.action,.absent.action{border-style:dashed;border-left-style:solid}
.rows{margin-top:.25rem;max-height:24rem;overflow:auto}
.branches{display:flex;flex-wrap:wrap;justify-content:center;align-items:flex-start;gap:.75rem;margin-top:.5rem}
.branch{min-width:0;flex:0 1 auto;padding:.5rem;border:1px dashed var(--line);border-radius:.3rem;background:var(--paper)}
.case{margin:0 0 .4rem;overflow-wrap:anywhere}
.kept,.closed,.redone{display:inline-block;margin-left:.4rem;padding:0 .3rem;border:1px solid;border-radius:.25rem;font-size:.8125rem}
.kept{color:var(--soft);border-style:dotted}
.closed{color:var(--many)}
.redone{color:var(--late);border-width:2px}
@media (max-width:40rem){body{padding:.5rem}.branch,.action{padding:.35rem}.action:not(:has(.branches)){width:100%}.branch{width:100%}
 .action{width:100%}}
</style>
"#;
