//! How an SVG looks.

/// Colours and lines, by day and by night.
pub(crate) const STYLE: &[u8] = b"<style>
text{font:14px ui-monospace,SFMono-Regular,Menlo,Consolas,'DejaVu Sans Mono',monospace;fill:#1f2328}
.page{fill:#fff}
.line,.end{fill:none;stroke:#6e7781;stroke-width:1.5}
.start{fill:#6e7781}
.leaf rect{fill:#fff;stroke:#57606a;stroke-width:1.5}
.leaf text,.either text,.number{text-anchor:middle}
.leaf .mark{font-size:11px;font-weight:bold}
.done rect{fill:#dafbe1;stroke:#1a7f37;stroke-width:2}
.next rect{fill:#ddf4ff;stroke:#0969da;stroke-width:3.5}
.claimed rect{fill:#fff8c5;stroke:#9a6700;stroke-width:2;stroke-dasharray:9 4}
.failed rect{fill:#ffebe9;stroke:#cf222e;stroke-width:2.5;stroke-dasharray:3 3}
.banned rect{fill:#f6f8fa;stroke:#8c959f;stroke-dasharray:1 4}
.banned text{fill:#6e7781}
.banned .label{text-decoration:line-through}
.frame rect{fill:#6e7781;fill-opacity:.08;stroke:#8c959f}
.iso rect{stroke:#57606a;stroke-width:3}
.frame text{font-size:12px;font-style:italic;fill:#57606a}
.beside rect{fill:#57606a}
.either rect,.either path{fill:#fff;stroke:#57606a;stroke-width:1.5}
.order{fill:none;stroke:#8250df;stroke-width:1.5;stroke-dasharray:5 3;marker-start:url(#tail);marker-end:url(#head)}
#head path,#tail circle{fill:#8250df}
.number{font-size:12px;font-weight:bold;fill:#8250df;stroke:#fff;stroke-width:6px;paint-order:stroke}
.note{font-size:13px}
.title .note{font-size:15px;font-weight:bold}
@media(prefers-color-scheme:dark){
text{fill:#e6edf3}
.page{fill:#0d1117}
.line,.end{stroke:#8b949e}
.start{fill:#8b949e}
.leaf rect{fill:#161b22;stroke:#8b949e}
.done rect{fill:#12361f;stroke:#3fb950}
.next rect{fill:#0c2d6b;stroke:#58a6ff}
.claimed rect{fill:#3b2e04;stroke:#d29922}
.failed rect{fill:#4c1014;stroke:#f85149}
.banned rect{fill:#0d1117;stroke:#6e7681}
.banned text{fill:#8b949e}
.frame rect{fill:#8b949e;stroke:#6e7681}
.iso rect{stroke:#8b949e}
.frame text{fill:#9ea7b3}
.beside rect{fill:#8b949e}
.either rect,.either path{fill:#0d1117;stroke:#8b949e}
.order{stroke:#bc8cff}
#head path,#tail circle{fill:#bc8cff}
.number{fill:#bc8cff;stroke:#0d1117}
}
</style>
<defs>
<marker id=\"head\" viewBox=\"0 0 8 8\" refX=\"7\" refY=\"4\" markerWidth=\"6\" markerHeight=\"6\" orient=\"auto\"><path d=\"M0 0L8 4L0 8z\"/></marker>
<marker id=\"tail\" viewBox=\"0 0 6 6\" refX=\"3\" refY=\"3\" markerWidth=\"5\" markerHeight=\"5\"><circle cx=\"3\" cy=\"3\" r=\"3\"/></marker>
</defs>
";

/// What marks mean.
pub(crate) const LEGEND: &[u8] =
    b"<g class=\"leaf done\"><rect x=\"0\" y=\"0\" width=\"76\" height=\"22\" rx=\"6\"/><text class=\"mark\" x=\"38\" y=\"15\">done</text></g><text class=\"note\" x=\"88\" y=\"15\">It is done.</text>
<g class=\"leaf next\"><rect x=\"0\" y=\"32\" width=\"76\" height=\"22\" rx=\"6\"/><text class=\"mark\" x=\"38\" y=\"47\">next</text></g><text class=\"note\" x=\"88\" y=\"47\">It can be taken or done now.</text>
<g class=\"leaf claimed\"><rect x=\"0\" y=\"64\" width=\"76\" height=\"22\" rx=\"6\"/><text class=\"mark\" x=\"38\" y=\"79\">claimed</text></g><text class=\"note\" x=\"88\" y=\"79\">It is taken, and how it ended is not told yet.</text>
<g class=\"leaf failed\"><rect x=\"0\" y=\"96\" width=\"76\" height=\"22\" rx=\"6\"/><text class=\"mark\" x=\"38\" y=\"111\">failed</text></g><text class=\"note\" x=\"88\" y=\"111\">It failed when it was last taken.</text>
<g class=\"leaf banned\"><rect x=\"0\" y=\"128\" width=\"76\" height=\"22\" rx=\"6\"/><text class=\"mark\" x=\"38\" y=\"143\">banned</text></g><text class=\"note\" x=\"88\" y=\"143\">It was given up, by a failure or a step back.</text>
";

/// How high the legend is.
pub(crate) const LEGEND_HEIGHT: u64 = 160;

/// How wide the legend is.
pub(crate) const LEGEND_WIDTH: u64 = 460;

/// That arrows are left out.
pub(crate) const LEFT_OUT: &[u8] = b"There are more orders than the 4096 that are drawn.";
