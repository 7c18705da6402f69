//! How a page begins, and how it looks. An SVG in it has a style of its own, whose classes are others.

/// The begin of a page. The policy keeps a browser from asking for anything.
pub(crate) const HEAD: &[u8] = b"<!DOCTYPE html>
<html lang=\"en\">
<head>
<meta charset=\"utf-8\">
<meta name=\"viewport\" content=\"width=device-width, initial-scale=1\">
<meta http-equiv=\"Content-Security-Policy\" content=\"default-src 'none'; style-src 'unsafe-inline'\">
";

/// Colours and widths, by day and by night, on a screen and on paper.
pub(crate) const STYLE: &[u8] = b"<style>
:root{color-scheme:light dark;--ink:#1f2328;--dim:#57606a;--paper:#fff;--rule:#d0d7de;--band:#f6f8fa;--alert:#a40e26}
@media screen and (prefers-color-scheme:dark){:root{--ink:#e6edf3;--dim:#9ea7b3;--paper:#0d1117;--rule:#30363d;--band:#161b22;--alert:#ff9492}}
*{box-sizing:border-box}
body{margin:0;font:16px/1.5 system-ui,-apple-system,'Segoe UI',Roboto,'DejaVu Sans',sans-serif;color:var(--ink);background:var(--paper)}
main{max-width:90rem;margin:0 auto;padding:1rem}
h1{font-size:1.75rem;line-height:1.25;margin:.5rem 0 1rem;overflow-wrap:anywhere}
h2{font-size:1.25rem;line-height:1.3;margin:2rem 0 .5rem}
p{margin:.5rem 0;max-width:50rem;overflow-wrap:anywhere}
.wide{overflow-x:auto;margin:.5rem 0}
.wide:focus-visible{outline:2px solid var(--dim)}
table{border-collapse:collapse}
th,td{padding:.3rem .8rem;text-align:left;vertical-align:top;border-bottom:1px solid var(--rule);white-space:pre-wrap;min-width:3rem;max-width:34rem;overflow-wrap:break-word}
thead th{background:var(--band);border-bottom-width:2px}
tbody th{font-weight:normal}
.taken-back td{color:var(--dim);text-decoration:line-through}
em{font-style:normal;font-weight:bold;color:var(--alert)}
svg{display:block}
@media(max-width:40rem){main{padding:.75rem}th,td{padding:.25rem .4rem;font-size:.875rem}tbody th,td{overflow-wrap:anywhere;min-width:3.5rem}}
@media print{
:root{color-scheme:light}
body{font-size:10pt}
main{max-width:none;padding:0}
.wide{overflow:visible}
svg{max-width:100%;height:auto}
h2{break-after:avoid}
tr{break-inside:avoid}
thead{display:table-header-group}
}
</style>
";
