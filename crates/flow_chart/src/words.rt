//! What the two forms of a chart say differently.

ghost use Rattle.std.specs.Prelude.{◌≡◌};
ghost use Rattle.flow_chart.specs.Words.{class_words, colour_words, head_words, foot_words, end_words, edge_words, open_words, close_words, break_words, mark_words, point_words, bar_words, frame_open, frame_label, frame_close, frame_foot, notes_open, notes_break, notes_close};

use flow_draw::Format;
use flow_view::{Mark, Sides};

/// How a flowchart of Mermaid begins.
pub(crate) const MERMAID_HEAD: &[u8] = b"flowchart LR
classDef default fill:#fff,stroke:#57606a,color:#1f2328
classDef done fill:#dafbe1,stroke:#1a7f37,stroke-width:2px,color:#1f2328
classDef next fill:#ddf4ff,stroke:#0969da,stroke-width:4px,color:#1f2328
classDef claimed fill:#fff8c5,stroke:#9a6700,stroke-dasharray:9 4,color:#1f2328
classDef failed fill:#ffebe9,stroke:#cf222e,stroke-dasharray:3 3,color:#1f2328
classDef banned fill:#f6f8fa,stroke:#8c959f,stroke-dasharray:1 4,color:#6e7781
classDef bar fill:#57606a,stroke:#57606a,color:#fff
classDef notes fill:none,stroke:none,text-align:left
";

/// How a graph of Graphviz begins.
pub(crate) const DOT_HEAD: &[u8] = b"digraph workflow {
rankdir=LR;
labelloc=t;
labeljust=l;
fontname=\"monospace\";
fontsize=11;
node [shape=box, style=\"rounded,filled\", fillcolor=white, color=\"#57606a\", fontname=\"monospace\", fontsize=11];
edge [color=\"#6e7781\", arrowsize=0.6, fontname=\"monospace\", fontsize=10];
";

/// How a chart begins.
pub(crate) fn head_words(format: Format) -> &'static [u8]
    ensures { result.now ≡ head_words format }
{
    match format {
        Format::Mermaid => MERMAID_HEAD,
        _ => DOT_HEAD,
    }
}

/// How a chart ends.
pub(crate) fn foot_words(format: Format) -> &'static [u8]
    ensures { result.now ≡ foot_words format }
{
    match format {
        Format::Mermaid => b"",
        _ => b"}\n",
    }
}

/// How a line ends.
pub(crate) fn end_words(format: Format) -> &'static [u8]
    ensures { result.now ≡ end_words format }
{
    match format {
        Format::Mermaid => b"\n",
        _ => b";\n",
    }
}

/// What stands between the ends of an edge.
pub(crate) fn edge_words(format: Format) -> &'static [u8]
    ensures { result.now ≡ edge_words format }
{
    match format {
        Format::Mermaid => b" --> ",
        _ => b" -> ",
    }
}

/// What stands before a label.
pub(crate) fn open_words(format: Format) -> &'static [u8]
    ensures { result.now ≡ open_words format }
{
    match format {
        Format::Mermaid => b"[\"",
        _ => b" [label=\"",
    }
}

/// What stands behind a label.
pub(crate) fn close_words(format: Format) -> &'static [u8]
    ensures { result.now ≡ close_words format }
{
    match format {
        Format::Mermaid => b"\"]",
        _ => b"\"",
    }
}

/// What makes a node a point.
pub(crate) fn point_words(format: Format) -> &'static [u8]
    ensures { result.now ≡ point_words format }
{
    match format {
        Format::Mermaid => b"(( ))\n",
        _ => b" [shape=point];\n",
    }
}

/// What stands before the number of a frame.
pub(crate) fn frame_open(format: Format) -> &'static [u8]
    ensures { result.now ≡ frame_open format }
{
    match format {
        Format::Mermaid => b"subgraph frame",
        _ => b"subgraph cluster_frame",
    }
}

/// What stands before the caption of a frame.
pub(crate) fn frame_label(format: Format) -> &'static [u8]
    ensures { result.now ≡ frame_label format }
{
    match format {
        Format::Mermaid => b"[\"",
        _ => b" {\nstyle=rounded;\ncolor=\"#8c959f\";\nlabel=\"",
    }
}

/// What stands behind the caption of a frame.
pub(crate) fn frame_close(format: Format) -> &'static [u8]
    ensures { result.now ≡ frame_close format }
{
    match format {
        Format::Mermaid => b"\"]\n",
        _ => b"\";\n",
    }
}

/// How a frame ends.
pub(crate) fn frame_foot(format: Format) -> &'static [u8]
    ensures { result.now ≡ frame_foot format }
{
    match format {
        Format::Mermaid => b"end\n",
        _ => b"}\n",
    }
}

/// What stands before the constraints.
pub(crate) fn notes_open(format: Format) -> &'static [u8]
    ensures { result.now ≡ notes_open format }
{
    match format {
        Format::Mermaid => b"notes[\"",
        _ => b"labelloc=b;\nlabel=\"",
    }
}

/// What stands behind a constraint.
pub(crate) fn notes_break(format: Format) -> &'static [u8]
    ensures { result.now ≡ notes_break format }
{
    match format {
        Format::Mermaid => b"<br/>",
        _ => b"\\l",
    }
}

/// What stands behind the constraints.
pub(crate) fn notes_close(format: Format) -> &'static [u8]
    ensures { result.now ≡ notes_close format }
{
    match format {
        Format::Mermaid => b"\"]:::notes\n",
        _ => b"\";\n",
    }
}

/// What stands between a label and the word of its mark.
pub(crate) fn break_words(format: Format, mark: Mark) -> &'static [u8]
    ensures { result.now ≡ break_words format mark }
{
    match (format, mark) {
        (_, Mark::Plain) => b"",
        (Format::Mermaid, _) => b"<br/>",
        _ => b"\\n",
    }
}

/// How the box of a leaf looks that has the mark.
pub(crate) fn mark_words(format: Format, mark: Mark) -> &'static [u8]
    ensures { result.now ≡ mark_words format mark }
{
    match format {
        Format::Mermaid => class_words(mark),
        _ => colour_words(mark),
    }
}

fn class_words(mark: Mark) -> &'static [u8]
    ensures { result.now ≡ class_words mark }
{
    match mark {
        Mark::Plain => b"",
        Mark::Done => b":::done",
        Mark::Next => b":::next",
        Mark::Claimed => b":::claimed",
        Mark::Failed => b":::failed",
        Mark::Banned => b":::banned",
    }
}

fn colour_words(mark: Mark) -> &'static [u8]
    ensures { result.now ≡ colour_words mark }
{
    match mark {
        Mark::Plain => b"]",
        Mark::Done => b", class=done, fillcolor=\"#dafbe1\", color=\"#1a7f37\", penwidth=2]",
        Mark::Next => b", class=next, fillcolor=\"#ddf4ff\", color=\"#0969da\", penwidth=4]",
        Mark::Claimed =>
            b", class=claimed, fillcolor=\"#fff8c5\", color=\"#9a6700\", style=\"rounded,filled,dashed\"]",
        Mark::Failed => b", class=failed, fillcolor=\"#ffebe9\", color=\"#cf222e\", peripheries=2]",
        Mark::Banned =>
            b", class=banned, fillcolor=\"#f6f8fa\", fontcolor=\"#6e7781\", style=\"rounded,filled,dotted\"]",
    }
}

/// What makes a node a bar at which sides part or meet.
pub(crate) fn bar_words(format: Format, sides: Sides) -> &'static [u8]
    ensures { result.now ≡ bar_words format sides }
{
    match (format, sides) {
        (Format::Mermaid, Sides::Beside) => b"[\"#124;\"]:::bar\n",
        (Format::Mermaid, Sides::Either) => b"{\"+\"}\n",
        (_, Sides::Beside) =>
            b" [shape=box, style=filled, fillcolor=\"#57606a\", label=\"\", width=0.09, height=0.6];\n",
        (_, Sides::Either) =>
            b" [shape=diamond, style=filled, label=\"+\", margin=0, width=0.35, height=0.35];\n",
    }
}
